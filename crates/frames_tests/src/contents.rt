// Every content that has a frame: its text, and the text back.
use frames::{Body, CallId, Cause, Frame, News, Operation, Verdict, read_line, write};
use std::test::Fail;
use text::write_text;

#[test]
fn contents_and_their_text(rt: HostRuntime) -> Result<(), Fail> {
    let hold = Operation::Hold;
    let retrieve = Operation::Retrieve;
    let cases = [
        (Body::Request(hold), false, 1, "1000010B3080"),
        (Body::Request(retrieve), true, 16_383, "113FFF0B30C0"),
        (
            Body::Answer(hold, Verdict::Granted),
            false,
            256,
            "2001000C30B0",
        ),
        (
            Body::Answer(retrieve, Verdict::Granted),
            true,
            255,
            "2100FF0C30F0",
        ),
        (
            declined(hold, Cause::NotSubscribed),
            false,
            5,
            "2000050F30A2",
        ),
        (
            declined(hold, Cause::LimitReached),
            false,
            5,
            "2000050F30A4",
        ),
        (
            declined(hold, Cause::CallNotThere),
            false,
            5,
            "2000050F30A6",
        ),
        (
            declined(hold, Cause::AlreadyOnHold),
            false,
            5,
            "2000050F30A8",
        ),
        (
            declined(retrieve, Cause::CallNotThere),
            true,
            5,
            "2100050F30E2",
        ),
        (
            declined(retrieve, Cause::NotOnHold),
            true,
            5,
            "2100050F30E4",
        ),
        (
            declined(retrieve, Cause::NoChannel),
            true,
            5,
            "2100050F30E6",
        ),
        (Body::ClearRequest, true, 5, "31000500"),
        (Body::ClearAnswer, false, 5, "40000500"),
        (Body::Notice(News::PutOnHold), false, 5, "5000050801"),
        (Body::Notice(News::Retrieved), false, 5, "5000050802"),
        (Body::Notice(News::Released), false, 5, "5000050803"),
    ];
    for (body, exchange, call, text) in cases {
        let call = CallId(call);
        let frame = Frame {
            exchange,
            call,
            body,
        };
        let octets = write(&frame)?;
        let written = write_text(rt.alloc(), octets.as_slice())?;
        assert_eq!(rt; written.as_str(), text);
        assert_eq!(rt; read_line(text.as_bytes())?, frame);
    }
    Ok(())
}

fn declined(operation: Operation, cause: Cause) -> Body {
    Body::Answer(operation, Verdict::Declined(cause))
}
