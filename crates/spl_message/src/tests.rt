ghost use Rattle.std.specs.Prelude.{◌≡◌, true, [], ◌∷◌, IfOk, None};
ghost use Rattle.spl_message.specs.Rule.{Rule};

use super::*;
use std::alloc::Global;
use std::test::Fail;

#[test]
fn a_key_has_1_to_64_bytes(rt: HostRuntime) {
    let bytes = [7u8; 65];
    assert_eq!(rt; Key::read(&bytes[..0]), Err(KeyFault::Empty));
    assert_eq!(rt; Key::read(&bytes), Err(KeyFault::Long { len: 65 }));
    assert!(rt; Key::read(&bytes[..64]).is_ok());
}

#[test]
fn a_value_has_at_most_512_bytes_and_an_equal_copy(rt: HostRuntime) -> Result<(), Fail> {
    let bytes = [7u8; 513];
    assert_eq!(rt;
        Value::read(rt.alloc(), &bytes),
        Err(ValueFault::Long { len: 513 })
    );
    let value = Value::read(rt.alloc(), &bytes[..512])?;
    assert_eq!(rt; value.bytes().len(), 512);
    let copy = value.copy()?;
    assert!(rt; copy == value);
    let message = Message::Insert(value);
    assert!(rt; message.copy()? == message);
    Ok(())
}

#[test]
fn the_bound_after_a_key_ends_a_span_of_that_key_alone(rt: HostRuntime) -> Result<(), Fail> {
    let mut bytes = [7u8; 64];
    let key = Key::read(&bytes)?;
    bytes[63] = 8;
    let next = Key::read(&bytes)?;
    let after = Bound::after(&key);
    assert_eq!(rt; after.bytes().len(), 65);
    assert_eq!(rt; after.key(), None);
    assert_eq!(rt; Bound::of(&key).key(), Some(key));
    let span = Span {
        from: Some(key),
        to: Some(after),
    };
    assert!(rt; span.holds(&key));
    assert!(rt; !span.holds(&next));
    let piece = Call::Piece(span);
    assert!(rt; piece.copy()? == piece);
    Ok(())
}

fn value(alloc: Global, text: &str) -> Result<Value, Fail> {
    Ok(Value::read(alloc, text.as_bytes())?)
}

fn update(alloc: Global, text: &str) -> Result<Message, Fail> {
    Ok(Message::Update(value(alloc, text)?))
}

#[test]
fn an_update_is_combined_with_what_it_meets(rt: HostRuntime) -> Result<(), Fail> {
    let alloc = rt.alloc();
    let key = Key::read(b"a")?;
    for (older, newer, both) in [
        (
            Message::Delete,
            update(alloc, "3")?,
            Message::Insert(value(alloc, "3")?),
        ),
        (
            update(alloc, "3")?,
            update(alloc, "4")?,
            update(alloc, "4")?,
        ),
        (update(alloc, "3")?, Message::Delete, Message::Delete),
    ] {
        assert_eq!(rt; combine(alloc, &Newest, &key, &older, &newer)?, both);
    }
    Ok(())
}

#[test]
fn a_last_message_settles_to_its_value(rt: HostRuntime) -> Result<(), Fail> {
    let alloc = rt.alloc();
    let key = Key::read(b"a")?;
    for (message, cell) in [
        (
            Some(Message::Update(value(alloc, "3")?)),
            Some(value(alloc, "3")?),
        ),
        (
            Some(Message::Insert(value(alloc, "5")?)),
            Some(value(alloc, "5")?),
        ),
        (Some(Message::Delete), None),
        (None, None),
    ] {
        assert_eq!(rt; settle(alloc, &Newest, &key, message)?, cell);
    }
    Ok(())
}

/// The operand, applied twice to no value.
fn twice<L: MergeLaw>(alloc: Global, law: &L, key: &Key, operand: &Value) -> Result<Value, NoMemory>
    requires { L.ready law.now }
    ensures { IfOk result (λ value. value ≡ (L.rule law.now).apply key.now None ((L.rule law.now).join key.now operand.now operand.now)) }
{
    let once = law.apply(alloc, key, None, operand)?;
    law.apply(alloc, key, Some(&once), operand)
}

#[test]
fn a_reference_to_a_law_is_that_law(rt: HostRuntime) -> Result<(), Fail> {
    let alloc = rt.alloc();
    let key = Key::read(b"a")?;
    let operand = value(alloc, "3")?;
    assert_eq!(rt; twice(alloc, &Newest, &key, &operand)?, value(alloc, "3")?);
    assert_eq!(rt; twice(alloc, &&Newest, &key, &operand)?, value(alloc, "3")?);
    assert_eq!(rt;
        Newest.join(alloc, &key, &operand, &value(alloc, "4")?)?,
        value(alloc, "4")?
    );
    Ok(())
}

#[tactic(auto, using(crate::proofs::Rising::one_rising))]
#[test]
fn pairs_are_given_back_as_they_came(rt: HostRuntime) -> Result<(), Fail> {
    let alloc = rt.alloc();
    let pairs = Pairs::of(vec![in alloc; (Key::read(b"a")?, value(alloc, "1")?)]?);
    assert_eq!(rt; pairs.as_slice().len(), 1);
    assert!(rt; pairs == Pairs::of(vec![in alloc; (Key::read(b"a")?, value(alloc, "1")?)]?));
    assert_eq!(rt; pairs.into_vec().len(), 1);
    Ok(())
}

#[test]
fn a_key_is_hashed_once_for_all_filters(rt: HostRuntime) -> Result<(), Fail> {
    let key = Key::read(b"a")?;
    let hashed = HashedKey::of(&key);
    assert_eq!(rt; hashed.hash(), 0xaf63dc4c8601ec8c);
    assert_eq!(rt; *hashed.key(), key);
    assert_eq!(rt; fnv(b""), 0xcbf29ce484222325);
    Ok(())
}

#[test]
fn a_span_ends_at_the_first_of_its_ends(rt: HostRuntime) -> Result<(), Fail> {
    let a = Key::read(b"a")?;
    let b = Key::read(b"b")?;
    let c = Key::read(b"c")?;
    let span = Span {
        from: Some(b),
        to: None,
    };
    assert!(rt; !span.is_empty());
    let short = span.with_end(&Some(Bound::of(&c)));
    assert_eq!(rt; short.to, Some(Bound::of(&c)));
    assert!(rt; Bound::of(&c).is_above(&b) && !Bound::of(&c).is_above(&c));
    assert!(rt; short.with_end(&Some(Bound::of(&a))).is_empty());
    assert!(rt; !short.with_end(&Some(Bound::after(&b))).is_empty());
    Ok(())
}

#[test]
fn owned_messages_combine_as_lent_ones(rt: HostRuntime) -> Result<(), Fail> {
    let alloc = rt.alloc();
    let key = Key::read(b"a")?;
    let older = Message::Update(value(alloc, "3")?);
    let newer = Message::Update(value(alloc, "4")?);
    let lent = combine(alloc, &Newest, &key, &older, &newer)?;
    assert!(rt; combine_owned(alloc, &Newest, &key, older, newer)? == lent);
    Ok(())
}

/// A branch of one key, which tells.
#[derive(Drop)]
struct Leaf {
    entry: (Key, Message),
}

#[tactic(auto, using(crate::proofs::Rising::one_rising))]
impl Content for Leaf {
    ghost TELLS = { true };

    ghost table = { λ leaf. record { messages = leaf.entry ∷ [] } };

    ghost number = { λ _. 7 };

    ghost extents = { λ _. 3 ∷ [] };

    ghost entries = { λ _. 1 };

    ghost cuts = { λ _. [] };

    ghost reach = { λ _ _. 1 };

    fn number(&self) -> u64 {
        7
    }

    fn extents(&self) -> &[u32] {
        &[3]
    }

    fn entries(&self) -> u64 {
        1
    }

    fn cuts(&self) -> &[Key] {
        &[]
    }

    fn reach(&self, _key: &HashedKey) -> u32 {
        1
    }
}

/// What a caller sees that knows only the trait.
fn shape<B: Content>(branch: &B, key: &Key) -> (u64, usize, u64, usize, u32) {
    (
        branch.number(),
        branch.extents().len(),
        branch.entries(),
        branch.cuts().len(),
        branch.reach(&HashedKey::of(key)),
    )
}

#[test]
fn a_branch_is_seen_through_its_trait(rt: HostRuntime) -> Result<(), Fail> {
    let key = Key::read(b"a")?;
    let leaf = Leaf {
        entry: (key, Message::Delete),
    };
    assert_eq!(rt; shape(&leaf, &key), (7, 1, 1, 0, 1));
    Ok(())
}
