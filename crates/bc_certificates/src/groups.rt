//! Slots in groups of 64, with four bits for each: a change of one slot passes along an edge by words.

use bc_shapes::Kind;

/// How many slots a group has.
pub(crate) const SIZE: usize = 64;

/// How many groups a row has at most.
pub(crate) const MOST: usize = 64;

/// Which slots of a group are values and which are causes. Those that are neither are open, or of a kind that stays.
#[derive(Clone, Copy)]
pub(crate) struct Open {
    pub values: u64,
    pub causes: u64,
}

/// Two bits for each slot of a group, both clear where the slot is open, a value or a cause. The others have no bit in `causes`, and
/// some have one in `values`.
#[derive(Clone, Copy)]
pub(crate) struct Firm {
    pub low: u64,
    pub high: u64,
}

/// The slots of a group.
#[derive(Clone, Copy)]
pub(crate) struct Group {
    pub open: Open,
    pub firm: Firm,
}

/// A group with these bits.
fn of_bits(values: u64, causes: u64, low: u64, high: u64) -> Group {
    Group {
        open: Open { values, causes },
        firm: Firm { low, high },
    }
}

/// A group of open slots.
pub(crate) fn all_open() -> Group {
    of_bits(0, 0, 0, 0)
}

/// The group in which these slots have the kind, and the others are open.
pub(crate) fn of_kind(kind: Kind, slots: u64) -> Group {
    match kind {
        Kind::Either => of_bits(0, 0, 0, 0),
        Kind::Value => of_bits(slots, 0, 0, 0),
        Kind::Cause => of_bits(0, slots, 0, 0),
        Kind::Null => of_bits(0, 0, slots, 0),
        Kind::Method => of_bits(0, 0, 0, slots),
        Kind::Iter1 => of_bits(0, 0, slots, slots),
        Kind::Iter2 => of_bits(slots, 0, slots, 0),
        Kind::Iter3 => of_bits(slots, 0, 0, slots),
        Kind::Iter4 => of_bits(slots, 0, slots, slots),
    }
}

/// The kind of the one slot that the bit is of.
pub(crate) fn kind_of(group: Group, slot: u64) -> Kind {
    let value = group.open.values & slot != 0;
    let low = group.firm.low & slot != 0;
    let high = group.firm.high & slot != 0;
    if low && high {
        return if value { Kind::Iter4 } else { Kind::Iter1 };
    }
    if low {
        return if value { Kind::Iter2 } else { Kind::Null };
    }
    if high {
        return if value { Kind::Iter3 } else { Kind::Method };
    }
    if value {
        return Kind::Value;
    }
    if group.open.causes & slot != 0 {
        Kind::Cause
    } else {
        Kind::Either
    }
}

/// The kind that all these slots have, where all are values or all are open.
pub(crate) fn only_kind(group: Group, slots: u64) -> Option<Kind> {
    if (group.open.causes | group.firm.low | group.firm.high) & slots != 0 {
        return None;
    }
    if group.open.values & slots == slots {
        return Some(Kind::Value);
    }
    if group.open.values & slots == 0 {
        Some(Kind::Either)
    } else {
        None
    }
}

/// Are the slots that stay the same, with the same kinds?
pub(crate) fn same_firm(one: Firm, other: Firm) -> bool {
    one.low == other.low && one.high == other.high
}

/// The bit of a slot in its group.
pub(crate) fn bit(slot: usize) -> u64 {
    1u64 << (slot % SIZE)
}

/// The bits of a group's slots that have numbers below the limit.
pub(crate) fn below(group: usize, limit: usize) -> u64 {
    let from = group.saturating_mul(SIZE);
    if limit <= from {
        return 0;
    }
    if limit - from >= SIZE {
        return u64::MAX;
    }
    bit(limit - from).wrapping_sub(1)
}

/// The one word with these bits from the other.
fn with_bits(word: u64, other: u64, bits: u64) -> u64 {
    (word & (bits ^ u64::MAX)) | (other & bits)
}

/// The one group with these slots from the other.
pub(crate) fn with_slots(one: Group, other: Group, slots: u64) -> Group {
    of_bits(
        with_bits(one.open.values, other.open.values, slots),
        with_bits(one.open.causes, other.open.causes, slots),
        with_bits(one.firm.low, other.firm.low, slots),
        with_bits(one.firm.high, other.firm.high, slots),
    )
}

/// The group with these slots as they are, and all others open.
pub(crate) fn only_slots(one: Group, slots: u64) -> Group {
    with_slots(all_open(), one, slots)
}

/// The group of that number, or open slots where there is none.
pub(crate) fn group_at(groups: &[Group], g: usize) -> Group {
    if g < groups.len() {
        groups[g]
    } else {
        all_open()
    }
}

/// The kind of a slot.
pub(crate) fn kind_at(groups: &[Group], slot: usize) -> Kind {
    kind_of(group_at(groups, slot / SIZE), bit(slot))
}

/// Puts the group of that number, where there is one.
pub(crate) fn put_group(groups: &mut Vec<Group>, g: usize, new: Group) {
    if g < groups.len() {
        groups[g] = new;
    }
}

/// Gives a slot its kind.
pub(crate) fn put_kind(groups: &mut Vec<Group>, slot: usize, kind: Kind) {
    let old = group_at(groups, slot / SIZE);
    put_group(
        groups,
        slot / SIZE,
        with_slots(old, of_kind(kind, bit(slot)), bit(slot)),
    );
}

/// Makes the slots from one up to another values.
pub(crate) fn put_values(groups: &mut Vec<Group>, from: usize, to: usize) {
    if from >= to {
        return;
    }
    for g in from / SIZE..to / SIZE + 1 {
        let slots = below(g, to) & (below(g, from) ^ u64::MAX);
        let old = group_at(groups, g);
        put_group(
            groups,
            g,
            with_slots(old, of_kind(Kind::Value, slots), slots),
        );
    }
}
