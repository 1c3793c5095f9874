use super::*;
use std::test::Fail;

/// Texts of certificates.
const SPELLED: [&str; 8] = [
    "bounds\nend\n",
    "bounds\nflow 0:1 1:1\nbound 0 1 1\nbound 1 1 1\nend\n",
    "bounds\nflow 2047:170141183460469231731687303715884105727\nflow 3:2\nend\n",
    "bounds\nbound 7 170141183460469231731687303715884105727 4294967295\nend\n",
    "bad-siphon\nsiphon 0\nend\n",
    "bad-siphon\nsiphon 0 5 2047\nend\n",
    "commoner\ntrap\nend\n",
    "commoner\nsplit 0\nempty\nsplit 12\ntrap\nempty\nend\n",
];

/// Texts that spell none, with their first bad line.
const MALFORMED: [(&str, u64); 30] = [
    ("", 1),
    ("bounds", 1),
    ("bound\n", 1),
    ("\nbounds\nend\n", 1),
    ("bounds\n", 2),
    ("bounds\nend", 2),
    ("bounds\r\nend\n", 1),
    ("bounds\nend\nx", 3),
    ("bounds\nend\n\n", 3),
    ("bounds\nend\nend\n", 3),
    ("bounds\nflow\nend\n", 2),
    ("bounds\nflow 0:1\nbound 0 1 1\nflow 1:1\nend\n", 4),
    ("bounds\nflow 0:01\nend\n", 2),
    ("bounds\nflow 00:1\nend\n", 2),
    ("bounds\nflow 0:0\nend\n", 2),
    (
        "bounds\nflow 0:170141183460469231731687303715884105728\nend\n",
        2,
    ),
    ("bounds\nflow 2048:1\nend\n", 2),
    ("bounds\nflow 1:1 0:1\nend\n", 2),
    ("bounds\nflow 1:1 1:1\nend\n", 2),
    ("bounds\nflow  0:1\nend\n", 2),
    ("bounds\nflow 0:1 \nend\n", 2),
    ("bounds\nflow 0\nend\n", 2),
    ("bounds\nbound 0 1 0\nend\n", 2),
    ("bounds\nbound 0 1 4294967296\nend\n", 2),
    ("bounds\nbound 1 1 1\nbound 1 1 1\nend\n", 3),
    ("bounds\nbound 0 1\nend\n", 2),
    ("bad-siphon\nend\n", 2),
    ("bad-siphon\nsiphon 0\n", 3),
    ("commoner\nsplit 0\nempty\nend\n", 4),
    ("commoner\nempty\ntrap\nend\n", 3),
];

#[test]
fn spelled_certificates_are_read_and_printed_back(rt: HostRuntime) -> Result<(), Fail> {
    let alloc = rt.alloc();
    for text in SPELLED {
        let certificate = read(alloc, text.as_bytes())?;
        assert_eq!(rt; print(alloc, &certificate)?.as_str(), text);
    }
    Ok(())
}

#[test]
fn malformed_texts_are_refused_with_their_line(rt: HostRuntime) -> Result<(), Fail> {
    let alloc = rt.alloc();
    for (text, line) in MALFORMED {
        assert_eq!(rt;
            read(alloc, text.as_bytes()).err(),
            Some(ReadFault::BadLine(line)),
            "{text}"
        );
    }
    Ok(())
}
