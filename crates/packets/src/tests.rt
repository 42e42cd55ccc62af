// Bytes as docs/FORMATS.md has them.
use crate::block::Block;
use crate::fault::*;
use crate::lay::*;
use crate::packet::*;
use crate::rest::Rest;
use crate::text::Text;
use crate::whole::encode;
use copies::agreeing::*;
use copies::message::*;
use copies::number::*;
use copies::sessions::Sessions;
use octets::BLANK_SECTOR;
use std::test::Fail;

const WANTS: [u8; 33] = [
    4, 0, 0, 0, 0, 0, 0, 0, 1, 0, 0, 0, 0, 0, 0, 2, 3, 0, 0, 0, 0, 0, 0, 0, 4, 0, 0, 0, 0, 0, 0, 0,
    5,
];

#[test]
fn a_want_is_its_numbers(rt: HostRuntime) -> Result<(), Fail> {
    let want = Want {
        base: Version(1),
        top: Version(515),
        key: Key((4 << 64) + 5),
    };
    let message: Packet = Message::Want(want);
    let bytes = encode(&message, rt.alloc())?;
    assert_eq!(rt; bytes.as_slice(), WANTS.as_slice());
    let again = decode_message(rt.alloc(), &bytes)?;
    assert!(rt; matches!(again, Message::Want(found) if found == want));
    Ok(())
}

#[test]
fn other_bytes_are_refused(rt: HostRuntime) {
    let short = decode_message(rt.alloc(), &WANTS[..32]);
    assert!(rt; matches!(short, Err(Unread::Fault(Fault::Short))));
    let longer = decode_message(
        rt.alloc(),
        &[2, 0, 0, 0, 0, 0, 0, 0, 0, 0, 0, 0, 0, 0, 0, 0, 0, 0, 9],
    );
    assert!(rt; matches!(longer, Err(Unread::Fault(Fault::Left))));
    let unknown = decode_message(rt.alloc(), &[6]);
    assert!(rt; matches!(unknown, Err(Unread::Fault(Fault::Range))));
    let crowded = decode_message(
        rt.alloc(),
        &[2, 0, 0, 0, 0, 0, 0, 0, 0, 0, 0, 0, 0, 0, 0, 0, 0, 9],
    );
    assert!(rt; matches!(crowded, Err(Unread::Fault(Fault::Range))));
}

#[test]
fn a_status_tells_its_proposal(rt: HostRuntime) -> Result<(), Fail> {
    let mut calls = Vec::new(rt.alloc());
    calls.push(Item {
        id: CallNumber(7),
        call: Text::new([5, 6].to_vec(rt.alloc())?),
    })?;
    let mut bundles = Vec::new(rt.alloc());
    bundles.push(Bundle {
        house: HouseNumber(2),
        number: Number {
            incarnation: 3,
            counter: 4,
        },
        calls,
    })?;
    let status = Status {
        promised: Ballot(1),
        version: Version(0),
        last: Ballot(0),
        proposal: Some(Proposal {
            ballot: Ballot(1),
            command: Command(bundles),
        }),
        recovering: true,
    };
    let message: Packet = Message::Status(status);
    let bytes = encode(&message, rt.alloc())?;
    assert_eq!(rt; bytes.len(), 1 + 24 + 1 + 1 + 8 + 1 + 24 + 1 + 14);
    assert_eq!(rt; &bytes[25..27], [1, 1].as_slice());
    assert_eq!(rt;
        &bytes[60..75],
        [1, 0, 0, 0, 10, 0, 0, 0, 0, 0, 0, 0, 7, 5, 6].as_slice()
    );
    let again = decode_message(rt.alloc(), &bytes)?;
    let twice = encode(&again, rt.alloc())?;
    assert_eq!(rt; twice.as_slice(), bytes.as_slice());
    Ok(())
}

#[test]
fn a_part_leaves_out_what_is_zero(rt: HostRuntime) -> Result<(), Fail> {
    let mut sectors = Vec::new(rt.alloc());
    sectors.push([9; 512])?;
    for _ in 1..8 {
        sectors.push(BLANK_SECTOR)?;
    }
    assert_eq!(rt; sectors.len(), 8);
    let mut blocks = Vec::new(rt.alloc());
    blocks.push(Stamped {
        key: Key(3),
        stamp: Version(2),
        block: Block { sectors },
    })?;
    let rest = Rest {
        next: 1,
        weight: 0,
        heads: Vec::new(rt.alloc()),
    };
    let part = Part {
        asked: Want {
            base: Version(0),
            top: Version(0),
            key: Key(0),
        },
        promised: Ballot(0),
        version: Version(2),
        last: Ballot(0),
        whole: true,
        floor: Version(0),
        blocks,
        tail: Tail::Ends(rest, Sessions::new(rt.alloc())?),
    };
    let message: Packet = Message::Part(part);
    let bytes = encode(&message, rt.alloc())?;
    assert_eq!(rt;
        bytes.len(),
        1 + 32 + 24 + 1 + 8 + 2 + 16 + 8 + 1 + 512 + 1 + 18 + 1 + 49 * 17
    );
    assert_eq!(rt; bytes[92], 1);
    let again = decode_message(rt.alloc(), &bytes)?;
    let twice = encode(&again, rt.alloc())?;
    assert_eq!(rt; twice.as_slice(), bytes.as_slice());
    Ok(())
}

#[test]
fn bytes_lie_on_sectors(rt: HostRuntime) -> Result<(), Fail> {
    let bytes = [7; 600].to_vec(rt.alloc())?;
    let sectors = to_sectors(&bytes, rt.alloc())?;
    assert_eq!(rt; sectors.len(), 2);
    let again = from_sectors(&sectors, rt.alloc())?;
    assert_eq!(rt; again.as_slice(), bytes.as_slice());
    Ok(())
}
