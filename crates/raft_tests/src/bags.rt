//! The network alone.
use ax_types::{End, NodeId, Packet, Payload, TakeRefused};
use net_bag::Bag;
use std::test::Fail;

fn end(number: u8) -> Result<End, Fail> {
    Ok(End::Node(NodeId::new(number).ok_or("no node")?))
}

/// A request for a vote, of a term.
fn request(term: u64) -> Result<Packet, Fail> {
    Ok(Packet {
        from: end(1)?,
        to: end(2)?,
        payload: Payload::Vote {
            term,
            last: 0,
            last_term: 0,
        },
    })
}

/// The network keeps the newest 16,384 packets.
#[test]
fn oldest_packet_is_gone(rt: HostRuntime) -> Result<(), Fail> {
    let mut bag = Bag::new(rt.alloc());
    'packets: for term in 1..16_386_u64 {
        if bag.send(request(term)?).is_err() {
            return Err("no memory".into());
        }
    }
    let up = [true, true];
    assert!(rt; matches!(bag.look(0, &up), Err(TakeRefused::NeverSent)));
    assert!(rt; matches!(bag.take(1, &up), Err(TakeRefused::Gone)));
    assert!(rt; matches!(bag.mark(1), Err(TakeRefused::Gone)));
    assert!(rt; matches!(bag.take(16_386, &up), Err(TakeRefused::NeverSent)));
    assert_eq!(rt; bag.next_up(&up), Some(2));
    assert!(rt;
        matches!(
            bag.look(2, &up),
            Ok(Packet {
                payload: Payload::Vote { term: 2, .. },
                ..
            })
        )
    );
    assert_eq!(rt; bag.next_up(&up), Some(2));
    assert!(rt;
        matches!(
            bag.take(2, &up),
            Ok(Packet {
                payload: Payload::Vote { term: 2, .. },
                ..
            })
        )
    );
    assert_eq!(rt; bag.next_up(&up), Some(3));
    assert_eq!(rt; bag.pending()?.0, 16_383);
    Ok(())
}
