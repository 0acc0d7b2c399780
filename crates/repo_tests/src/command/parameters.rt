// Parameters under a verb, each with whether a client asks for something by them.
pub(super) const PARAMETERS: [(&[u8], &[u8], bool); 34] = [
    // Wider numbers.
    (
        b"insert",
        &[
            0xc9, 0x14, 7, 4, 8, 2, 0x69, 0x6e, 0xcc, 2, 0, 5, 0xcd, 8, 0, 0, 0, 0, 0, 0, 0, 6,
        ],
        true,
    ),
    // A number of three octets.
    (
        b"insert",
        &[
            0xc9, 0x0e, 7, 4, 8, 2, 0x69, 0x6e, 0xcc, 3, 0, 0, 5, 0xcd, 1, 6,
        ],
        false,
    ),
    // A number of no octets.
    (
        b"insert",
        &[0xc9, 0x0b, 7, 4, 8, 2, 0x69, 0x6e, 0xcc, 1, 5, 0xcd, 0],
        false,
    ),
    // No name.
    (b"insert", &[0xc9, 6, 0xcc, 1, 5, 0xcd, 1, 6], false),
    // No first block.
    (
        b"insert",
        &[0xc9, 9, 7, 4, 8, 2, 0x69, 0x6e, 0xcd, 1, 6],
        false,
    ),
    // No last block.
    (
        b"insert",
        &[0xc9, 9, 7, 4, 8, 2, 0x69, 0x6e, 0xcc, 1, 5],
        false,
    ),
    // The last block before the first.
    (
        b"insert",
        &[0xc9, 0x0c, 7, 4, 8, 2, 0x69, 0x6e, 0xcd, 1, 6, 0xcc, 1, 5],
        false,
    ),
    // The first block twice, the second of three octets.
    (
        b"insert",
        &[
            0xc9, 0x11, 7, 4, 8, 2, 0x69, 0x6e, 0xcc, 1, 5, 0xcc, 3, 0, 0, 0, 0xcd, 1, 6,
        ],
        true,
    ),
    // The last block twice.
    (
        b"insert",
        &[
            0xc9, 0x0f, 7, 4, 8, 2, 0x69, 0x6e, 0xcc, 1, 5, 0xcd, 1, 6, 0xcd, 1, 6,
        ],
        false,
    ),
    // The name twice.
    (
        b"insert",
        &[
            0xc9, 0x12, 7, 4, 8, 2, 0x69, 0x6e, 7, 4, 8, 2, 0x69, 0x6e, 0xcc, 1, 5, 0xcd, 1, 6,
        ],
        false,
    ),
    // The name after the numbers.
    (
        b"insert",
        &[0xc9, 0x0c, 0xcc, 1, 5, 0xcd, 1, 6, 7, 4, 8, 2, 0x69, 0x6e],
        false,
    ),
    // An element that need not be understood.
    (
        b"insert",
        &[
            0xc9, 0x0e, 0xf0, 0, 7, 4, 8, 2, 0x69, 0x6e, 0xcc, 1, 5, 0xcd, 1, 6,
        ],
        true,
    ),
    // One that must be.
    (
        b"insert",
        &[
            0xc9, 0x0e, 7, 4, 8, 2, 0x69, 0x6e, 0xf1, 0, 0xcc, 1, 5, 0xcd, 1, 6,
        ],
        false,
    ),
    // A field cut off.
    (
        b"insert",
        &[0xc9, 0x0b, 7, 4, 8, 2, 0x69, 0x6e, 0xcc, 1, 5, 0xcd, 1],
        false,
    ),
    // An element cut off after the parameters.
    (
        b"insert",
        &[
            0xc9, 0x0c, 7, 4, 8, 2, 0x69, 0x6e, 0xcc, 1, 5, 0xcd, 1, 6, 0xcc,
        ],
        true,
    ),
    // Cut off.
    (
        b"insert",
        &[0xc9, 0x0c, 7, 4, 8, 2, 0x69, 0x6e, 0xcc, 1, 5, 0xcd, 1],
        false,
    ),
    // An element of another type.
    (
        b"insert",
        &[0xca, 0x0c, 7, 4, 8, 2, 0x69, 0x6e, 0xcc, 1, 5, 0xcd, 1, 6],
        false,
    ),
    // An empty name.
    (b"insert", &[0xc9, 8, 7, 0, 0xcc, 1, 5, 0xcd, 1, 6], false),
    // A name with a digest.
    (
        b"insert",
        &[
            0xc9, 0x2e, 7, 0x26, 8, 2, 0x69, 0x6e, 1, 0x20, 7, 7, 7, 7, 7, 7, 7, 7, 7, 7, 7, 7, 7,
            7, 7, 7, 7, 7, 7, 7, 7, 7, 7, 7, 7, 7, 7, 7, 7, 7, 7, 7, 0xcc, 1, 5, 0xcd, 1, 6,
        ],
        false,
    ),
    // A component of type 1 that is no digest.
    (b"check", &[0xc9, 8, 7, 3, 1, 1, 7, 0xce, 1, 1], false),
    // One block.
    (
        b"insert",
        &[0xc9, 0x0c, 7, 4, 8, 2, 0x69, 0x6e, 0xcc, 1, 5, 0xcd, 1, 5],
        true,
    ),
    // No block.
    (
        b"insert",
        &[0xc9, 0x0c, 7, 4, 8, 2, 0x69, 0x6e, 0xcc, 1, 6, 0xcd, 1, 5],
        false,
    ),
    // 200 blocks.
    (
        b"insert",
        &[
            0xc9, 0x0c, 7, 4, 8, 2, 0x69, 0x6e, 0xcc, 1, 0, 0xcd, 1, 0xc7,
        ],
        true,
    ),
    // 201 blocks.
    (
        b"insert",
        &[
            0xc9, 0x0c, 7, 4, 8, 2, 0x69, 0x6e, 0xcc, 1, 0, 0xcd, 1, 0xc8,
        ],
        false,
    ),
    // The last 200 blocks that there are.
    (
        b"insert",
        &[
            0xc9, 0x1a, 7, 4, 8, 2, 0x69, 0x6e, 0xcc, 8, 0xff, 0xff, 0xff, 0xff, 0xff, 0xff, 0xff,
            0x38, 0xcd, 8, 0xff, 0xff, 0xff, 0xff, 0xff, 0xff, 0xff, 0xff,
        ],
        true,
    ),
    // A process that is not asked for.
    (
        b"insert",
        &[
            0xc9, 0x0f, 7, 4, 8, 2, 0x69, 0x6e, 0xcc, 1, 5, 0xcd, 1, 6, 0xce, 1, 1,
        ],
        true,
    ),
    // One of three octets.
    (
        b"insert",
        &[
            0xc9, 0x11, 7, 4, 8, 2, 0x69, 0x6e, 0xcc, 1, 5, 0xcd, 1, 6, 0xce, 3, 0, 0, 1,
        ],
        false,
    ),
    // A process.
    (b"check", &[0xc9, 3, 0xce, 1, 1], true),
    // None.
    (b"check", &[0xc9, 6, 7, 4, 8, 2, 0x69, 0x6e], false),
    // A name with a digest, which is not asked for.
    (
        b"check",
        &[
            0xc9, 0x27, 7, 0x22, 1, 0x20, 7, 7, 7, 7, 7, 7, 7, 7, 7, 7, 7, 7, 7, 7, 7, 7, 7, 7, 7,
            7, 7, 7, 7, 7, 7, 7, 7, 7, 7, 7, 7, 7, 0xce, 1, 1,
        ],
        true,
    ),
    // An empty name, which is not asked for.
    (b"check", &[0xc9, 5, 7, 0, 0xce, 1, 1], true),
    // A name.
    (b"delete", &[0xc9, 6, 7, 4, 8, 2, 0x69, 0x6e], true),
    // None but a process.
    (b"delete", &[0xc9, 3, 0xce, 1, 1], false),
    // A name of a digest alone.
    (
        b"delete",
        &[
            0xc9, 0x24, 7, 0x22, 1, 0x20, 7, 7, 7, 7, 7, 7, 7, 7, 7, 7, 7, 7, 7, 7, 7, 7, 7, 7, 7,
            7, 7, 7, 7, 7, 7, 7, 7, 7, 7, 7, 7, 7,
        ],
        false,
    ),
];
