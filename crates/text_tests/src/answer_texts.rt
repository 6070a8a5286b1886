// Each answer as text.
use answers::{AnswerText, KindText, Located};
use parcels::{Answer, Kind, Reason, Refusal, Slip, Step};
use std::test::Fail;

#[test]
fn answers(rt: HostRuntime) -> Result<(), Fail> {
    let heap = rt.alloc();
    let slip = Slip {
        key: 1,
        step: 4294967296,
        from: 2,
        to: 3,
        dest: 4,
        amount: 50,
    };
    let table = [
        (
            Answer::Refused(Refusal {
                reason: Reason::WrongSlip,
                place: 18446744073709551615,
            }),
            "refused 5 at 18446744073709551615",
        ),
        (Answer::Number(50), "50"),
        (Answer::Given(slip), "slip 1: 4294967296 2 3 4 50"),
        (
            Answer::At(Step {
                number: 5,
                kind: Kind::HandedOut,
                office: 2,
            }),
            "step 5, kind 3, office 2",
        ),
        (Answer::NothingHeard, "nothing heard"),
        (Answer::Two(50, 0), "50 0"),
    ];
    for (answer, expected) in table {
        assert_eq!(rt; AnswerText(answer).to_string(heap)?.as_str(), expected);
    }
    Ok(())
}

#[test]
fn kinds(rt: HostRuntime) -> Result<(), Fail> {
    let table = [
        (Kind::Accepted, "accepted"),
        (Kind::SentOn, "sent on"),
        (Kind::ComeIn, "come in"),
        (Kind::HandedOut, "handed out"),
    ];
    for (kind, expected) in table {
        assert_eq!(rt; KindText(kind).to_string(rt.alloc())?.as_str(), expected);
    }
    Ok(())
}

#[test]
fn located(rt: HostRuntime) -> Result<(), Fail> {
    let step = Step {
        number: 5,
        kind: Kind::HandedOut,
        office: 2,
    };
    assert_eq!(rt;
        Located { key: 7, step }.to_string(rt.alloc())?.as_str(),
        "7: step 5, handed out at 2"
    );
    Ok(())
}
