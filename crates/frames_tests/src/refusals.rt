// Content that no frame has, with the refusal that is checked first, and text that is none.
use frames::{Body, CallId, Cause, Frame, News, Operation, Verdict, write};
use text::{Fault, Layer, read_text};

// The parts of the content apart, so that a case is one line.
fn refusal(exchange: bool, call: u16, body: Body) -> Option<Fault> {
    let call = CallId(call);
    write(&Frame {
        exchange,
        call,
        body,
    })
    .err()
}

#[test]
fn contents_without_a_frame(rt: HostRuntime) {
    let notice = Body::Notice(News::Released);
    let listed = Body::Answer(Operation::Retrieve, Verdict::Declined(Cause::NoChannel));
    let unlisted = Body::Answer(Operation::Hold, Verdict::Declined(Cause::NoChannel));
    assert_eq!(rt; refusal(false, 5, notice), None);
    assert_eq!(rt;
        refusal(true, 5, notice),
        Some(Fault::at(Layer::Frame, 12, 0))
    );
    assert_eq!(rt;
        refusal(true, 0, notice),
        Some(Fault::at(Layer::Frame, 12, 0))
    );
    assert_eq!(rt;
        refusal(false, 0, notice),
        Some(Fault::at(Layer::Frame, 13, 1))
    );
    assert_eq!(rt; refusal(true, 16_383, listed), None);
    assert_eq!(rt;
        refusal(true, 16_384, listed),
        Some(Fault::at(Layer::Frame, 13, 1))
    );
    assert_eq!(rt;
        refusal(true, 65_535, unlisted),
        Some(Fault::at(Layer::Frame, 13, 1))
    );
    assert_eq!(rt;
        refusal(true, 1, unlisted),
        Some(Fault::at(Layer::Frame, 17, 3))
    );
}

#[test]
fn causes_that_are_not_listed(rt: HostRuntime) {
    let hold = [Cause::NotOnHold, Cause::NoChannel];
    for cause in hold {
        let body = Body::Answer(Operation::Hold, Verdict::Declined(cause));
        assert_eq!(rt;
            refusal(false, 7, body),
            Some(Fault::at(Layer::Frame, 17, 3))
        );
    }
    let retrieve = [
        Cause::NotSubscribed,
        Cause::LimitReached,
        Cause::AlreadyOnHold,
    ];
    for cause in retrieve {
        let body = Body::Answer(Operation::Retrieve, Verdict::Declined(cause));
        assert_eq!(rt;
            refusal(false, 7, body),
            Some(Fault::at(Layer::Frame, 17, 3))
        );
    }
}

#[test]
fn lines_that_are_no_text(rt: HostRuntime) {
    let cases = [
        ("", Some(Fault::at(Layer::Line, 2, 0))),
        ("0", Some(Fault::at(Layer::Line, 2, 1))),
        ("00", None),
        ("0a", Some(Fault::at(Layer::Line, 3, 1))),
        ("g0", Some(Fault::at(Layer::Line, 3, 0))),
        ("00 0", Some(Fault::at(Layer::Line, 3, 2))),
        ("00\r\n", Some(Fault::at(Layer::Line, 3, 2))),
    ];
    for (line, fault) in cases {
        assert_eq!(rt; read_text(line.as_bytes()).err(), fault);
    }
    assert_eq!(rt; read_text(&[b'F'; 64]).err(), None);
    assert_eq!(rt;
        read_text(&[b'F'; 65]).err(),
        Some(Fault::at(Layer::Line, 1, 64))
    );
    assert_eq!(rt;
        read_text(&[b'z'; 999]).err(),
        Some(Fault::at(Layer::Line, 1, 64))
    );
}
