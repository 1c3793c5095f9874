use super::*;
use std::test::Fail;

/// A call: the words, the input and the sizes of the two buffers; the status, and what the buffers got.
struct Call {
    words: &'static [u8],
    input: &'static [u8],
    room: (u8, u8),
    status: u8,
    out: &'static [u8],
    err: &'static [u8],
}

const PLACE: &[u8] =
    b"<pnml xmlns=\"http://www.pnml.org/version-2009/grammar/pnml\"><net id=\"n\" type=\"http://www.pnml.org/version-2009/grammar/ptnet\"><place id=\"p\"/></net></pnml>";

const COUNTS: &[u8] = b"places 1 transitions 0 arcs 0\n";

const CALLS: [Call; 8] = [
    Call {
        words: b"check",
        input: PLACE,
        room: (99, 99),
        status: 0,
        out: COUNTS,
        err: b"",
    },
    Call {
        words: b"check --rows 9 --sets 8",
        input: PLACE,
        room: (30, 0),
        status: 0,
        out: COUNTS,
        err: b"",
    },
    Call {
        words: b"check",
        input: PLACE,
        room: (6, 99),
        status: 9,
        out: b"places",
        err: b"write fault\n",
    },
    Call {
        words: b"check",
        input: PLACE,
        room: (0, 5),
        status: 9,
        out: b"",
        err: b"write",
    },
    Call {
        words: b"check",
        input: b"<net/>",
        room: (99, 99),
        status: 3,
        out: b"",
        err: b"document refused at 0: bad attribute\n",
    },
    Call {
        words: b"",
        input: PLACE,
        room: (99, 6),
        status: 2,
        out: b"",
        err: b"usage:",
    },
    Call {
        words: b"check ",
        input: PLACE,
        room: (99, 6),
        status: 2,
        out: b"",
        err: b"usage:",
    },
    Call {
        words: b"\xff",
        input: PLACE,
        room: (99, 6),
        status: 2,
        out: b"",
        err: b"usage:",
    },
];

#[test]
fn calls_fill_the_buffers_as_far_as_they_go(rt: HostRuntime) -> Result<(), Fail> {
    let alloc = rt.alloc();
    for call in &CALLS {
        let mut out = vec![in alloc; 0u8; call.room.0 as usize]?;
        let mut err = vec![in alloc; 0u8; call.room.1 as usize]?;
        let mut written = Written { out: 0, err: 0 };
        let status = pnmlstruct_run(
            alloc,
            call.words,
            call.input,
            out.as_mut_slice(),
            err.as_mut_slice(),
            &mut written,
        );
        assert_eq!(rt; status, call.status);
        assert_eq!(rt; &out.as_slice()[..written.out], call.out);
        assert_eq!(rt; &err.as_slice()[..written.err], call.err);
    }
    Ok(())
}
