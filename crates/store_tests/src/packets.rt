//! Packets as bytes: each kind is read whole, no front of it is a packet, and what follows it is left.
use ax_types::{ClientId, How, List, LongOp, Name, NoMemory, Op, Payload};
use byteorder::{BigEndian, ByteOrder};
use net_wire::{read, write};
use std::alloc::Global;
use std::process::Abort;
use std::test::Fail;

/// A packet of each kind, in hexadecimal digits.
static PACKETS: [&'static str; 17] = [
    "01 0000000000000001 0000000000000002 0000000000000003",
    "02 0000000000000001 01",
    "03 0000000000000001 0000000000000002 0000000000000003 0000000000000004 0000000000000005 02 0000000000000006 0000000000000007 00 0000000000000006 0000000000000008 05 0000000000000002",
    "04 0000000000000001 00 0000000000000002 0000000000000003",
    "05 10 0000000000000001",
    "06 01 0000000000000002 0000000000000003 0000000000000004",
    "07 01 0000000000000002 0000000000000001 01 63 03 01 0000000000000005",
    "08 01 0000000000000002",
    "09 01 0000000000000002 0000000000000003 01 0000000000000004 0000000000000005 01 6d 01 01 02 6b 31",
    "0a 01 0000000000000002 0000000000000003",
    "0b 01 0000000000000002 0000000000000003",
    "0c 0000000000000001 0000000000000002",
    "0d 0000000000000002 0000000000000001 0000000000000003 0000000000000000 09 00000002 0000000000000002 0000000000000004",
    "0e 0000000000000002 0000000000000001",
    "0f 0000000000000002 0000000000000003 01 0000000000000004 0000000000000000 0000000000000005 0000000000000006 02 01 61",
    "10 0000000000000002 0000000000000005 0000000000000003 00000001 05 01 6c 0000000000000007",
    "11 0000000000000002 0000000000000004 01",
];

fn digit(byte: u8) -> Option<u8> {
    match byte {
        b'0'..=b'9' => byte.checked_sub(b'0'),
        b'a'..=b'f' => byte.checked_sub(b'a' - 10),
        _ => None,
    }
}

/// The bytes that these hexadecimal digits spell; blanks stand for nothing.
fn bytes_of(alloc: Global, digits: &str) -> Result<Vec<u8>, Fail> {
    let mut bytes = Vec::new(alloc);
    let mut high = None;
    for byte in digits.as_bytes() {
        if let Some(low) = digit(*byte) {
            match high {
                None => high = Some(low),
                Some(first) => {
                    bytes.push(low.wrapping_add(16u8.wrapping_mul(first)))?;
                    high = None;
                }
            }
        }
    }
    Ok(bytes)
}

/// How many bytes the packet has with which these begin.
fn length_of(alloc: Global, bytes: &[u8]) -> Result<Option<usize>, NoMemory> {
    Ok(read(alloc, bytes)?.map(|(_, length)| length))
}

#[test]
fn fronts_are_no_packets(rt: HostRuntime) -> Result<(), Fail> {
    let alloc = rt.alloc();
    for digits in PACKETS.iter() {
        let mut bytes = bytes_of(alloc, digits)?;
        let whole = bytes.len();
        for count in 0..whole {
            assert_eq!(rt;
                length_of(alloc, &bytes.as_slice()[..count])?,
                None,
                "{count} of {digits}"
            );
        }
        assert_eq!(rt;
            length_of(alloc, bytes.as_slice())?,
            Some(whole),
            "{digits}"
        );
        bytes.push(0)?;
        assert_eq!(rt;
            length_of(alloc, bytes.as_slice())?,
            Some(whole),
            "{digits} and more"
        );
    }
    Ok(())
}

#[test]
fn wrong_bytes_are_no_packets(rt: HostRuntime) -> Result<(), Fail> {
    let alloc = rt.alloc();
    for digits in [
        "00",
        "12 0000000000000002 0000000000000004 01",
        // a truth value, a client, a way to end, a level
        "02 0000000000000001 02",
        "05 00 0000000000000001",
        "05 11 0000000000000001",
        "11 0000000000000002 0000000000000004 02",
        "09 01 0000000000000002 0000000000000003 02 0000000000000004 0000000000000005 01 6d 01 01 02 6b 31",
        // a capital letter in a name, a name of no letters, an operation that is none
        "07 01 0000000000000002 0000000000000001 01 43 03 01 0000000000000005",
        "07 01 0000000000000002 0000000000000001 00 03 01 0000000000000005",
        "07 01 0000000000000002 0000000000000001 01 63 03 05 0000000000000005",
        // 17 entries; a batch of no events; a sequential answer with an arrival
        "03 0000000000000001 0000000000000002 0000000000000003 0000000000000004 0000000000000005 11",
        "10 0000000000000002 0000000000000005 0000000000000003 00000000",
        "0f 0000000000000002 0000000000000003 00 0000000000000004 0000000000000000 0000000000000005 0000000000000006 02 01 61",
    ] {
        let bytes = bytes_of(alloc, digits)?;
        assert_eq!(rt; length_of(alloc, bytes.as_slice())?, None, "{digits}");
    }
    Ok(())
}

#[test]
fn numbers_stand_with_the_highest_byte_first(rt: HostRuntime) -> Result<(), Fail> {
    let alloc = rt.alloc();
    let vote = write(
        alloc,
        &Payload::Vote {
            term: 1 << 40,
            last: 515,
            last_term: u64::MAX,
        },
    )?;
    let mut expected = [1; 25];
    BigEndian::write_u64(&mut expected[1..9], 1 << 40);
    BigEndian::write_u64(&mut expected[9..17], 515);
    BigEndian::write_u64(&mut expected[17..25], u64::MAX);
    assert_eq!(rt; vote.as_slice(), expected.as_slice());
    let ended = write(
        alloc,
        &Payload::Ended {
            session: 2,
            place: 4,
            how: How::Expired,
        },
    )?;
    assert_eq!(rt; ended.as_slice(), bytes_of(alloc, PACKETS[16])?.as_slice());
    let client = ClientId::new(1).ok_or("no client")?;
    let name = Name::read(alloc, b"c")?.ok_or("no name")?;
    let op = Op::Long(LongOp::Add { delta: 5 });
    let command = write(
        alloc,
        &Payload::Command {
            client,
            session: 2,
            seq: 1,
            name,
            op,
        },
    )?;
    assert_eq!(rt; command.as_slice(), bytes_of(alloc, PACKETS[6])?.as_slice());
    Ok(())
}
