// Each call beside its bytes. The bytes of a number differ, and so do the numbers of a call, so that no other
// order, shift or exchange gives the same row.
use crate::lent::check_call_written;
use parcels::{Call, Slip};
use std::process::Abort;
use wire::read_call;

pub(crate) fn check_calls(rt: &impl Abort) {
    let table: &[(Call, &[u8])] = &[
        (
            Call::Accept {
                dest: 0x04030201,
                amount: 0x08070605,
            },
            b"\x00\x01\x02\x03\x04\x05\x06\x07\x08",
        ),
        (
            Call::Send {
                key: 0x14131211,
                to: 0x18171615,
            },
            b"\x01\x11\x12\x13\x14\x15\x16\x17\x18",
        ),
        (Call::SlipAgain { key: 0x24232221 }, b"\x02\x21\x22\x23\x24"),
        (
            Call::TakeIn {
                slip: Slip {
                    key: 0x04030201,
                    step: 0x08070605,
                    from: 0x0c0b0a09,
                    to: 0x100f0e0d,
                    dest: 0x14131211,
                    amount: 0x18171615,
                },
            },
            b"\x03\
                  \x01\x02\x03\x04\
                  \x05\x06\x07\x08\
                  \x09\x0a\x0b\x0c\
                  \x0d\x0e\x0f\x10\
                  \x11\x12\x13\x14\
                  \x15\x16\x17\x18",
        ),
        (Call::HandOut { key: 0x44434241 }, b"\x04\x41\x42\x43\x44"),
        (Call::Pay { key: 0x54535251 }, b"\x05\x51\x52\x53\x54"),
        (Call::WhereIs { key: 0x64636261 }, b"\x06\x61\x62\x63\x64"),
        (Call::Here { from: 0x74737271 }, b"\x07\x71\x72\x73\x74"),
        (Call::Sums, b"\x08"),
        // the least and the largest values
        (
            Call::Accept { dest: 0, amount: 0 },
            b"\x00\x00\x00\x00\x00\x00\x00\x00\x00",
        ),
        (Call::Here { from: 0xffffffff }, b"\x07\xff\xff\xff\xff"),
        (
            Call::TakeIn {
                slip: Slip {
                    key: 0,
                    step: 0xffffffff,
                    from: 0,
                    to: 0xffffffff,
                    dest: 0,
                    amount: 0xffffffff,
                },
            },
            b"\x03\
                  \x00\x00\x00\x00\
                  \xff\xff\xff\xff\
                  \x00\x00\x00\x00\
                  \xff\xff\xff\xff\
                  \x00\x00\x00\x00\
                  \xff\xff\xff\xff",
        ),
    ];
    for (call, bytes) in table {
        check_call(rt, *call, bytes);
    }
}

// The bytes are read as the call, and the call is written as the bytes, into the fewest that may be lent too.
fn check_call(rt: &impl Abort, call: Call, bytes: &[u8]) {
    assert!(rt; read_call(bytes) == Ok(call), "call {bytes:?}");
    check_call_written::<64>(rt, call, Some(bytes));
    check_call_written::<25>(rt, call, Some(bytes));
}
