ghost use Rattle.std.specs.Prelude.{◌≡◌, ℕ, ◌<◌, ◌≤◌, MatchBool, bit_and, bit_or};
ghost use Rattle.columns.specs.Relation.{Meets};
ghost use Rattle.columns.specs.Mask.{Bit, Means, Near, Lowest};

use crate::relation::Relation;
use std::ops::{BitAnd, BitOr, BitOrAssign};

// A set of columns, as a mask: bit c is 1 where column c belongs to it.
#[derive(Clone, Copy)]
pub struct ColumnSet {
    pub bits: u64,
}

impl ColumnSet {
    pub const EMPTY: ColumnSet = ColumnSet { bits: 0 };

    pub const ALL: ColumnSet = ColumnSet { bits: u64::MAX };

    // The set with just that column; the empty set past 63.
    pub fn only(column: u8) -> ColumnSet
        ensures { Means result.bits (λ d. (d < 64) × (d ≡ column)) }
    {
        ColumnSet {
            bits: if column < 64 { 1 << column } else { 0 },
        }
    }

    // Whether no column belongs to the set.
    pub fn is_empty(self) -> bool
        ensures value { MatchBool result (self.bits ≡ 0) (0 < self.bits) }
        ensures columns { MatchBool result ((c : ℕ) → Bit self.bits c → ⊥) ((c : ℕ) × Bit self.bits c) }
    {
        self.bits == 0
    }

    // Whether the column belongs to the set; no column past 63 does.
    pub fn has(self, column: u8) -> bool
        ensures { MatchBool result (Bit self.bits column) (Bit self.bits column → ⊥) }
    {
        column < 64 && (self.bits >> column) & 1 == 1
    }

    // The columns of a node that one of these item columns meets.
    pub fn node_columns(self, relation: Relation) -> ColumnSet
        ensures { Means result.bits (Near relation (Bit self.bits)) }
    {
        match relation {
            Relation::Equal => self,
            Relation::Above => self.below_highest(),
            Relation::AtLeast => self.below_highest() | self,
            Relation::Any => self.all_if_some(),
        }
    }

    // The least of these item columns that meets the relation to that node column; none where none does.
    pub fn least(self, relation: Relation, column: u8) -> Option<u8>
        ensures { Lowest (λ d. Bit self.bits d × Meets relation column d) result }
    {
        let meeting = self & ColumnSet::item_columns(relation, column);
        if meeting.is_empty() {
            None
        } else {
            Some(meeting.bits.trailing_zeros() as u8)
        }
    }

    // The columns of an item that meet the relation to that node column.
    fn item_columns(relation: Relation, column: u8) -> ColumnSet
        ensures { Means result.bits (λ d. (d < 64) × Meets relation column d) }
    {
        match relation {
            Relation::Equal => ColumnSet::only(column),
            Relation::Above => ColumnSet::starting_at(column.saturating_add(1)),
            Relation::AtLeast => ColumnSet::starting_at(column),
            Relation::Any => ColumnSet::ALL,
        }
    }

    // That column and all above it; none past 63.
    fn starting_at(column: u8) -> ColumnSet
        ensures { Means result.bits (λ d. (d < 64) × (column ≤ d)) }
    {
        ColumnSet {
            bits: if column < 64 { u64::MAX << column } else { 0 },
        }
    }

    // The columns below the highest of the set.
    fn below_highest(self) -> ColumnSet
        ensures { Means result.bits (Near Relation.Above (Bit self.bits)) }
    {
        if self.is_empty() {
            ColumnSet::EMPTY
        } else {
            ColumnSet {
                bits: (1 << self.bits.ilog2()) - 1,
            }
        }
    }

    // Every column, or none where the set is empty.
    fn all_if_some(self) -> ColumnSet
        ensures { Means result.bits (Near Relation.Any (Bit self.bits)) }
    {
        if self.is_empty() {
            ColumnSet::EMPTY
        } else {
            ColumnSet::ALL
        }
    }
}

impl BitOr for ColumnSet {
    type Output = ColumnSet;

    ghost bitor_gives = { λ a b r. r.bits ≡ bit_or a.bits b.bits };

    fn bitor(self, other: ColumnSet) -> ColumnSet {
        ColumnSet {
            bits: self.bits | other.bits,
        }
    }
}

impl BitOrAssign for ColumnSet {
    ghost bitor_assign_gives = { λ a b r. r.bits ≡ bit_or a.bits b.bits };

    fn bitor_assign(&mut self, other: ColumnSet) {
        *self = *self | other;
    }
}

impl BitAnd for ColumnSet {
    type Output = ColumnSet;

    ghost bitand_gives = { λ a b r. r.bits ≡ bit_and a.bits b.bits };

    fn bitand(self, other: ColumnSet) -> ColumnSet {
        ColumnSet {
            bits: self.bits & other.bits,
        }
    }
}
