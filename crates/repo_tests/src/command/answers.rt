use repo_command::Answer;

// Octets as an answer, or as none.
pub(super) const ANSWERS: [(&[u8], Option<Answer>); 18] = [
    // A process was started.
    (
        &[0xcf, 6, 0xce, 1, 1, 0xd0, 1, 0x64],
        Some(Answer {
            code: 100,
            process: Some(1),
            inserted: None,
            deleted: None,
        }),
    ),
    // Blocks have come.
    (
        &[0xcf, 7, 0xd0, 2, 1, 0x2c, 0xd1, 1, 0],
        Some(Answer {
            code: 300,
            process: None,
            inserted: Some(0),
            deleted: None,
        }),
    ),
    // Packets were dropped.
    (
        &[0xcf, 7, 0xd0, 1, 0xc8, 0xd2, 2, 1, 0x92],
        Some(Answer {
            code: 200,
            process: None,
            inserted: None,
            deleted: Some(402),
        }),
    ),
    // Every field, the widest numbers.
    (
        &[
            0xcf, 0x20, 0xce, 8, 0xff, 0xff, 0xff, 0xff, 0xff, 0xff, 0xff, 0xff, 0xd0, 4, 0, 0,
            0xff, 0xff, 0xd1, 4, 0, 0, 0, 2, 0xd2, 8, 0, 0, 0, 0, 0, 0, 0, 0,
        ],
        Some(Answer {
            code: 65535,
            process: Some(18446744073709551615),
            inserted: Some(2),
            deleted: Some(0),
        }),
    ),
    // A code alone.
    (
        &[0xcf, 4, 0xd0, 2, 1, 0x94],
        Some(Answer {
            code: 404,
            process: None,
            inserted: None,
            deleted: None,
        }),
    ),
    // A code above 65,535.
    (&[0xcf, 6, 0xd0, 4, 0, 1, 0, 0], None),
    // No code.
    (&[0xcf, 3, 0xce, 1, 1], None),
    // A code of three octets.
    (&[0xcf, 5, 0xd0, 3, 0, 1, 2], None),
    // The process after the code.
    (
        &[0xcf, 6, 0xd0, 1, 0x64, 0xce, 1, 1],
        Some(Answer {
            code: 100,
            process: None,
            inserted: None,
            deleted: None,
        }),
    ),
    // The code twice.
    (
        &[0xcf, 6, 0xd0, 1, 0x64, 0xd0, 1, 0xc8],
        Some(Answer {
            code: 100,
            process: None,
            inserted: None,
            deleted: None,
        }),
    ),
    // A number of blocks after that of packets.
    (&[0xcf, 9, 0xd0, 1, 0xc8, 0xd2, 1, 1, 0xd1, 1, 1], None),
    // Elements that need not be understood.
    (
        &[0xcf, 8, 0xf0, 1, 0x61, 0xd0, 1, 0x64, 0xf2, 0],
        Some(Answer {
            code: 100,
            process: None,
            inserted: None,
            deleted: None,
        }),
    ),
    // One that must be.
    (&[0xcf, 5, 0xd0, 1, 0x64, 0xf1, 0], None),
    // Octets after it.
    (&[0xcf, 3, 0xd0, 1, 0x64, 0xf0, 0], None),
    // Cut off.
    (&[0xcf, 3, 0xd0, 1], None),
    // A field cut off.
    (&[0xcf, 2, 0xd0, 1], None),
    // Another type.
    (&[0xc9, 3, 0xd0, 1, 0x64], None),
    // No octets.
    (&[], None),
];
