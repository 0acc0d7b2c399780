use super::{INSERTION, PRE, expect_transcript};
use repo_io::*;
use std::test::*;

// First lines, then lines each with what it prints after it, and the status.
const ROWS: [(&str, &str, Status); 25] = [
    // A publication reaches both catalogues.
    (
        PRE,
        "publish alice /doc 10 text:abc\n\
         > publish alice 1 segments 1 sync 1\n\
         settle 2\n\
         > settle syncs 2 kept 2\n\
         catalogue alice\n\
         > catalogue alice 1\n\
         > entry alice 1 /doc segments 1 octets 3 sha256 \
         ba7816bf8f01cfea414140de5dae2223b00361a396177a9cb410ff61f20015ad\n\
         catalogue bob\n\
         > catalogue bob 1\n\
         > entry alice 1 /doc segments 1 octets 3 sha256 \
         ba7816bf8f01cfea414140de5dae2223b00361a396177a9cb410ff61f20015ad\n\
         traffic\n\
         > traffic syncs 3 delivered 2 attempts 0 parts 2 octets 197\n",
        Status::Done,
    ),
    // A member knows what it hears.
    (
        PRE,
        "publish alice /doc 10 text:abc\n\
         > publish alice 1 segments 1 sync 1\n\
         deliver 1 bob\n\
         > deliver 1 bob steady\n\
         vector bob\n\
         > vector bob alice=1 bob=0\n\
         catalogue bob\n\
         > catalogue bob 0\n",
        Status::Done,
    ),
    // A later sync Interest is heard first.
    (
        PRE,
        "publish alice /a 10 text:abc\n\
         > publish alice 1 segments 1 sync 1\n\
         publish alice /b 10 text:abc\n\
         > publish alice 2 segments 1 sync 2\n\
         deliver 2 bob\n\
         > deliver 2 bob steady\n\
         deliver 1 bob\n\
         > deliver 1 bob suppressed\n\
         deliver 1 bob\n\
         > deliver 1 bob suppressed\n\
         deliver 1 bob\n\
         > deliver 1 bob suppressed\n\
         vector bob\n\
         > vector bob alice=2 bob=0\n",
        Status::Done,
    ),
    // Part after part is claimed and answered.
    (
        PRE,
        "publish alice /doc 1 text:abc\n\
         > publish alice 1 segments 3 sync 1\n\
         deliver 1 bob\n\
         > deliver 1 bob steady\n\
         claim bob 1\n\
         > claim bob 1 part alice 1 0\n\
         answer bob 1 alice\n\
         > answer bob 1 kept\n\
         claim bob 1\n\
         > claim bob 1 part alice 1 1\n\
         answer bob 1 alice\n\
         > answer bob 1 kept\n\
         claim bob 1\n\
         > claim bob 1 part alice 1 2\n\
         answer bob 1 alice\n\
         > answer bob 1 kept\n\
         catalogue bob\n\
         > catalogue bob 0\n\
         claim bob 1\n\
         > claim bob 1 part alice 1 3\n\
         answer bob 1 alice\n\
         > answer bob 1 kept\n\
         catalogue bob\n\
         > catalogue bob 1\n\
         > entry alice 1 /doc segments 3 octets 3 sha256 \
         ba7816bf8f01cfea414140de5dae2223b00361a396177a9cb410ff61f20015ad\n",
        Status::Done,
    ),
    // One object has two numbers.
    (
        PRE,
        "publish alice /doc 10 text:abc\n\
         > publish alice 1 segments 1 sync 1\n\
         publish alice /doc 10 text:abc\n\
         > publish alice 2 segments 1 sync 2\n\
         settle 1\n\
         > settle syncs 2 kept 4\n\
         catalogue bob\n\
         > catalogue bob 2\n\
         > entry alice 1 /doc segments 1 octets 3 sha256 \
         ba7816bf8f01cfea414140de5dae2223b00361a396177a9cb410ff61f20015ad\n\
         > entry alice 2 /doc segments 1 octets 3 sha256 \
         ba7816bf8f01cfea414140de5dae2223b00361a396177a9cb410ff61f20015ad\n\
         dump bob alice 1 1\n\
         > dump bob 064d07080803646f6332010014051a03320100150361626316131b01041c0e070c0805616c69636508034b45591720375b\
         6af5bb89153f9e9f217bcff08bb4e94a9c19f2ab42636d6eaa822dd3fcfa\n\
         dump bob alice 2 1\n\
         > dump bob 064d07080803646f6332010014051a03320100150361626316131b01041c0e070c0805616c69636508034b45591720375b\
         6af5bb89153f9e9f217bcff08bb4e94a9c19f2ab42636d6eaa822dd3fcfa\n\
         traffic\n\
         > traffic syncs 4 delivered 2 attempts 0 parts 4 octets 394\n",
        Status::Done,
    ),
    // One name has two publishers.
    (
        PRE,
        "member carol /carol 6b33\n\
         publish alice /doc 10 text:abc\n\
         > publish alice 1 segments 1 sync 1\n\
         publish bob /doc 10 text:hello\n\
         > publish bob 1 segments 1 sync 2\n\
         settle 3\n\
         > settle syncs 3 kept 8\n\
         catalogue carol\n\
         > catalogue carol 2\n\
         > entry alice 1 /doc segments 1 octets 3 sha256 \
         ba7816bf8f01cfea414140de5dae2223b00361a396177a9cb410ff61f20015ad\n\
         > entry bob 1 /doc segments 1 octets 5 sha256 \
         2cf24dba5fb0a30e26e83b2ac5b9e29e1b161e5c1fa7425e73043362938b9824\n",
        Status::Done,
    ),
    // Contents are cut.
    (
        "",
        "group /g\n\
         member alice /alice 6b31\n\
         publish alice /e 4 text:\n\
         > publish alice 1 segments 0 sync 1\n\
         catalogue alice\n\
         > catalogue alice 1\n\
         > entry alice 1 /e segments 0 octets 0 sha256 \
         e3b0c44298fc1c149afbf4c8996fb92427ae41e4649b934ca495991b7852b855\n\
         publish alice /f 4 text:abcd\n\
         > publish alice 2 segments 1 sync 2\n\
         publish alice /h 4 text:abcde\n\
         > publish alice 3 segments 2 sync 3\n\
         publish alice /i 4 fill:800:65\n\
         > publish alice 4 segments 200 sync 4\n\
         publish alice /j 1 fill:20001:65\n\
         > refused 8 4 Limit\n",
        Status::Refused { line: 8, number: 4 },
    ),
    // A settle ends claims.
    (
        PRE,
        "publish alice /doc 1 text:abc\n\
         > publish alice 1 segments 3 sync 1\n\
         deliver 1 bob\n\
         > deliver 1 bob steady\n\
         claim bob 1\n\
         > claim bob 1 part alice 1 0\n\
         answer bob 1 alice\n\
         > answer bob 1 kept\n\
         claim bob 1\n\
         > claim bob 1 part alice 1 1\n\
         answer bob 1 alice\n\
         > answer bob 1 kept\n\
         claim bob 1\n\
         > claim bob 1 part alice 1 2\n\
         settle 2\n\
         > settle syncs 2 kept 2\n\
         catalogue bob\n\
         > catalogue bob 1\n\
         > entry alice 1 /doc segments 3 octets 3 sha256 \
         ba7816bf8f01cfea414140de5dae2223b00361a396177a9cb410ff61f20015ad\n\
         claim bob 1\n\
         > claim bob 1 none\n",
        Status::Done,
    ),
    // Timers fire.
    (
        PRE,
        "fire bob\n\
         > fire bob early\n\
         publish alice /a 10 text:abc\n\
         > publish alice 1 segments 1 sync 1\n\
         publish alice /b 10 text:abc\n\
         > publish alice 2 segments 1 sync 2\n\
         deliver 2 bob\n\
         > deliver 2 bob steady\n\
         deliver 1 bob\n\
         > deliver 1 bob suppressed\n\
         deliver 2 bob\n\
         > deliver 2 bob suppressed\n\
         advance 100\n\
         > advance now 100\n\
         fire bob\n\
         > fire bob quiet\n\
         deliver 1 bob\n\
         > deliver 1 bob suppressed\n\
         advance 100\n\
         > advance now 200\n\
         fire bob\n\
         > fire bob sent 3\n",
        Status::Done,
    ),
    // A restart keeps what was published and held.
    (
        PRE,
        "client carl /carl 6b34\n\
         publish alice /doc 1 text:abc\n\
         > publish alice 1 segments 3 sync 1\n\
         deliver 1 bob\n\
         > deliver 1 bob steady\n\
         claim bob 1\n\
         > claim bob 1 part alice 1 0\n\
         answer bob 1 alice\n\
         > answer bob 1 kept\n\
         restart bob\n\
         > restart bob\n\
         claim bob 1\n\
         > claim bob 1 part alice 1 1\n\
         publish bob /b 10 text:abc\n\
         > publish bob 1 segments 1 sync 2\n\
         delete alice carl /doc\n\
         > delete alice 200 packets 4\n\
         restart alice\n\
         > restart alice\n\
         publish alice /c 10 text:abc\n\
         > publish alice 2 segments 1 sync 3\n",
        Status::Done,
    ),
    // A sync Interest that was sent is given from outside.
    (
        PRE,
        "publish alice /doc 10 text:abc\n\
         > publish alice 1 segments 1 sync 1\n\
         hear bob 0573072808016736010202206f504a90c15c79060eb22e95a6f5a26d5ac53df3312f58b4aae5e23af1b299fd2410c90eca0c\
         07070805616c696365cc01012c131b01041c0e070c0805616c69636508034b45592e20f15b2fa4ae603e113ad456498d48ae98fcecb04\
         b9e9117633457038bde17139b\n\
         > hear bob steady\n",
        Status::Done,
    ),
    // The last octet of a sync Interest is changed.
    (
        PRE,
        "publish alice /doc 10 text:abc\n\
         > publish alice 1 segments 1 sync 1\n\
         hear bob 0573072808016736010202206f504a90c15c79060eb22e95a6f5a26d5ac53df3312f58b4aae5e23af1b299fd2410c90eca0c\
         07070805616c696365cc01012c131b01041c0e070c0805616c69636508034b45592e20f15b2fa4ae603e113ad456498d48ae98fcecb04\
         b9e9117633457038bde17139a\n\
         > hear bob refused ParamsDigest\n",
        Status::Done,
    ),
    // No member sent this sync Interest.
    (
        PRE,
        "publish alice /doc 10 text:abc\n\
         > publish alice 1 segments 1 sync 1\n\
         hear bob 0571072808016736010202206cd855fdbf3b84d34fecd34746db6228f93b53a9d0fc8051edbacf236e0500662410c90eca0c\
         07070805616c696365cc01012c111b01041c0c070a0803626f6208034b45592e20e625fa34c78bd51883fa4703a4eff2f9e30aa8e71ae\
         252b4092fc134c0c5d043\n\
         > foreign 5\n",
        Status::Foreign { line: 5 },
    ),
    ("", INSERTION, Status::Done),
    // A generated script.
    (
        "",
        "group /g\n\
         member m1 /n/1 6b01\n\
         member m2 /n/2 6b02\n\
         publish m1 /o/1 100 fill:400:111\n\
         > publish m1 1 segments 4 sync 1\n\
         settle 4\n\
         > settle syncs 2 kept 5\n\
         summary\n\
         > summary m1 entries 1 segments 4 octets 400\n\
         > summary m2 entries 1 segments 4 octets 400\n",
        Status::Done,
    ),
    // A record is asked for and dumped.
    (
        PRE,
        "publish alice /doc 10 text:abc\n\
         > publish alice 1 segments 1 sync 1\n\
         settle 2\n\
         > settle syncs 2 kept 2\n\
         ask bob 050f070d0805616c6963650801673a0101\n\
         > ask bob found 0674070d0805616c6963650801673a0101152c07050803646f638101018320a81e4ec9e732923effbeb940256a176\
         5187d04a99b440057e515a292ec9a722d16131b01041c0e070c0805616c69636508034b455917207e61911ee2099d3402db77699bdf35\
         c543e343abbd0f01476e9ff22338ef5d98\n\
         dump bob alice 1 0\n\
         > dump bob 0674070d0805616c6963650801673a0101152c07050803646f638101018320a81e4ec9e732923effbeb940256a1765187d\
         04a99b440057e515a292ec9a722d16131b01041c0e070c0805616c69636508034b455917207e61911ee2099d3402db77699bdf35c543e\
         343abbd0f01476e9ff22338ef5d98\n\
         ask bob 0511070d0805616c6963650801673a01011200\n\
         > ask bob none\n\
         ask bob 0500\n\
         > ask bob refused Missing Name\n",
        Status::Done,
    ),
    // Commands are refused by codes.
    (
        PRE,
        "client carl /carl 6b34\n\
         publish alice /doc 10 text:abc\n\
         > publish alice 1 segments 1 sync 1\n\
         order alice 0500\n\
         > order alice 403\n\
         order alice 057407310805616c696365080664656c6574650220ee9944426e9a514d128624895a7c98f22fe234b909cc29bdb52bfdc\
         3638deb202409c90707050803646f632c121b01041c0d070b08046361726c08034b45592e20fb1c29fb23da22f7c7d7f2b39d686140a6\
         bf7a99bce7770bcec3ee5fbacf4563\n\
         > order alice 401\n",
        Status::Done,
    ),
    // A command was issued before.
    (
        PRE,
        "client carl /carl 6b34\n\
         publish alice /doc 10 text:abc\n\
         > publish alice 1 segments 1 sync 1\n\
         delete alice carl /other\n\
         > delete alice 404\n\
         delete alice carl /doc\n\
         > delete alice 200 packets 2\n\
         order alice 057407310805616c696365080664656c657465022027490a2bd5f0f89936a752be977e1a1140fdfbc08557f92f9c440b6\
         92ee2ea1b2409c90707050803646f632c121b01041c0d070b08046361726c08034b45592e20fb1c29fb23da22f7c7d7f2b39d686140a6\
         bf7a99bce7770bcec3ee5fbacf4562\n\
         > order alice 404\n",
        Status::Done,
    ),
    // No client issued the command.
    (
        PRE,
        "client carl /carl 6b34\n\
         publish alice /doc 10 text:abc\n\
         > publish alice 1 segments 1 sync 1\n\
         delete bob carl /doc\n\
         > delete bob 404\n\
         order alice 057407310805616c696365080664656c657465022027490a2bd5f0f89936a752be977e1a1140fdfbc08557f92f9c440b6\
         92ee2ea1b2409c90707050803646f632c121b01041c0d070b08046361726c08034b45592e20fb1c29fb23da22f7c7d7f2b39d686140a6\
         bf7a99bce7770bcec3ee5fbacf4562\n\
         > foreign 7\n",
        Status::Foreign { line: 7 },
    ),
    // A watcher is informed of an object under its prefix once.
    (
        PRE,
        "watch bob * /doc\n\
         > watch bob 1\n\
         publish alice /doc/a 10 text:abc\n\
         > publish alice 1 segments 1 sync 1\n\
         publish alice /x 10 text:abc\n\
         > publish alice 2 segments 1 sync 2\n\
         settle 1\n\
         > settle syncs 2 kept 4\n\
         told bob 1\n\
         > told bob 1 1\n\
         > entry alice 1 /doc/a segments 1 octets 3 sha256 \
         ba7816bf8f01cfea414140de5dae2223b00361a396177a9cb410ff61f20015ad\n\
         told bob 1\n\
         > told bob 1 0\n",
        Status::Done,
    ),
    // A watcher is not informed of what was listed before it, nor of another publisher's objects; after a restart and a
    // deletion what was reported to it counts as reported.
    (
        PRE,
        "client carl /carl 6b34\n\
         publish bob /doc 10 text:abc\n\
         > publish bob 1 segments 1 sync 1\n\
         watch bob bob /\n\
         > watch bob 1\n\
         watch alice * /do\n\
         > watch alice 1\n\
         watch bob * /\n\
         > watch bob 2\n\
         publish bob /doc 10 text:abc\n\
         > publish bob 2 segments 1 sync 2\n\
         publish alice /x 10 text:abc\n\
         > publish alice 1 segments 1 sync 3\n\
         settle 1\n\
         > settle syncs 2 kept 6\n\
         told bob 1\n\
         > told bob 1 1\n\
         > entry bob 2 /doc segments 1 octets 3 sha256 \
         ba7816bf8f01cfea414140de5dae2223b00361a396177a9cb410ff61f20015ad\n\
         restart bob\n\
         > restart bob\n\
         delete bob carl /doc\n\
         > delete bob 200 packets 4\n\
         told bob 1\n\
         > told bob 1 0\n\
         told alice 1\n\
         > told alice 1 0\n\
         told bob 2\n\
         > told bob 2 1\n\
         > entry alice 1 /x segments 1 octets 3 sha256 \
         ba7816bf8f01cfea414140de5dae2223b00361a396177a9cb410ff61f20015ad\n",
        Status::Done,
    ),
    // The entries that a watcher is informed of are in order of publisher and number, with those that were listed late.
    (
        PRE,
        "watch alice * /\n\
         > watch alice 1\n\
         publish bob /b 10 text:abc\n\
         > publish bob 1 segments 1 sync 1\n\
         publish alice /a 10 text:\n\
         > publish alice 1 segments 0 sync 2\n\
         told alice 1\n\
         > told alice 1 1\n\
         > entry alice 1 /a segments 0 octets 0 sha256 \
         e3b0c44298fc1c149afbf4c8996fb92427ae41e4649b934ca495991b7852b855\n\
         publish alice /c 10 text:\n\
         > publish alice 2 segments 0 sync 3\n\
         settle 1\n\
         > settle syncs 2 kept 4\n\
         told alice 1\n\
         > told alice 1 2\n\
         > entry alice 2 /c segments 0 octets 0 sha256 \
         e3b0c44298fc1c149afbf4c8996fb92427ae41e4649b934ca495991b7852b855\n\
         > entry bob 1 /b segments 1 octets 3 sha256 \
         ba7816bf8f01cfea414140de5dae2223b00361a396177a9cb410ff61f20015ad\n",
        Status::Done,
    ),
    // Nobody holds the wanted record.
    (
        PRE,
        "client carl /carl 6b34\n\
         publish alice /doc 10 text:abc\n\
         > publish alice 1 segments 1 sync 1\n\
         delete alice carl /doc\n\
         > delete alice 200 packets 2\n\
         settle 1\n\
         > settle syncs 2 kept 0\n\
         catalogue bob\n\
         > catalogue bob 0\n\
         claim bob 1\n\
         > claim bob 1 part alice 1 0\n",
        Status::Done,
    ),
    // A logged packet is fed.
    (
        PRE,
        "publish alice /doc 10 text:abc\n\
         > publish alice 1 segments 1 sync 1\n\
         deliver 1 bob\n\
         > deliver 1 bob steady\n\
         claim bob 1\n\
         > claim bob 1 part alice 1 0\n\
         feed bob 1 0674070d0805616c6963650801673a0101152c07050803646f638101018320a81e4ec9e732923effbeb940256a1765187d\
         04a99b440057e515a292ec9a722d16131b01041c0e070c0805616c69636508034b455917207e61911ee2099d3402db77699bdf35c543e\
         343abbd0f01476e9ff22338ef5d98\n\
         > feed bob 1 kept\n",
        Status::Done,
    ),
    // The publisher never made the packet.
    (
        PRE,
        "publish alice /doc 10 text:abc\n\
         > publish alice 1 segments 1 sync 1\n\
         deliver 1 bob\n\
         > deliver 1 bob steady\n\
         claim bob 1\n\
         > claim bob 1 part alice 1 0\n\
         feed bob 1 0674070d0805616c6963650801673a0101152c07050803646f638101018320344e6da7d1e6503eee30b426b91b21f321ef\
         5f3c74ad4ead888ef45c5fb71f2c16131b01041c0e070c0805616c69636508034b45591720c38eff1cbab328b28ccba881455c7d36c5f\
         ccf1476e612d2fa75c2240b2a1b8f\n\
         > foreign 7\n",
        Status::Foreign { line: 7 },
    ),
];

#[test]
fn lines_print_what_they_do(rt: HostRuntime) {
    for (head, transcript, wanted) in &ROWS {
        expect_transcript(&rt, head, transcript, *wanted);
    }
}
