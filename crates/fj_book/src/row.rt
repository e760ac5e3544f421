// How many hold each place of a variable.
ghost use Rattle.std.specs.Prelude.{◌≡◌, ◌+◌, ◌-◌, ◌%◌, ◌^◌, ◌≤◌, ◌&&◌, nat_le, nat_lt, if◌then◌else◌, ℕ, length, take, drop, replicate, slice_get, IfOk};
ghost use Rattle.std.specs.List.{list_any};
ghost use Rattle.std.specs.Option.{option_map};

use std::alloc::{AllocError, Global};
use std::marker::Model;

/// The numbers of a variable's places, each in two parts of which the sum counts, and which wrap. What is counted at all of them
/// is counted once.
#[derive(Drop)]
pub(crate) struct Row {
    all: u64,
    each: Vec<u64>,
    /// Some places were counted by themselves.
    apart: bool,
}

impl Model for Row {
    ghost use Rattle.std.specs.Prelude.{◌≡◌, ◌+◌, ◌%◌, ◌^◌, false, ℕ, List, All, map};

    ghost Value = { List ℕ };

    ghost view = { λ row. map (λ n. (row.all + n) % 2 ^ 64) row.each.items };

    ghost invariant = { λ row. row.apart ≡ false → All (λ n. n ≡ 0) row.each.items };
}

/// Adds to the numbers from a place up to another. They wrap.
fn add_each(each: &mut Vec<u64>, from: usize, to: usize, by: u64)
    requires order { from ≤ to }
    requires within { to ≤ length each.old.items }
    ensures { (at : ℕ) → slice_get each.new.items at
        ≡ (if nat_le from at && nat_lt at to then option_map (λ n. (n + by) % 2 ^ 64) (slice_get each.old.items at) else slice_get each.old.items at) }
{
    for at in from..to {
        each[at] = each[at].wrapping_add(by);
    }
}

/// Whether one of some numbers is above 0 with what is added to each. They wrap.
fn any_above(all: u64, each: &[u64]) -> bool
    ensures { result ≡ list_any (λ n. nat_lt 0 ((all + n) % 2 ^ 64)) each.now }
{
    for number in each {
        if all.wrapping_add(*number) > 0 {
            return true;
        }
    }
    false
}

impl Row {
    /// Of so many places that nothing holds.
    pub(crate) fn new(alloc: Global, count: u32) -> Result<Row, AllocError>
        ensures { IfOk result (λ row. row ≡ replicate count 0) }
    {
        Ok(Row {
            all: 0,
            each: vec![in alloc; 0; count as usize]?,
            apart: false,
        })
    }

    pub(crate) fn len(&self) -> usize
        ensures { result ≡ length self.now }
    {
        self.each.len()
    }

    /// Adds to the numbers from a place up to another. They wrap.
    pub(crate) fn add(&mut self, from: usize, to: usize, by: u64)
        requires order { from ≤ to }
        requires within { to ≤ length self.old }
        ensures { (at : ℕ) → slice_get self.new at
            ≡ (if nat_le from at && nat_lt at to then option_map (λ n. (n + by) % 2 ^ 64) (slice_get self.old at) else slice_get self.old at) }
    {
        if from == 0 && to == self.each.len() {
            self.all = self.all.wrapping_add(by);
            return;
        }
        self.apart = true;
        add_each(&mut self.each, from, to, by);
    }

    /// Whether a number from a place up to another is above 0.
    pub(crate) fn any(&self, from: usize, to: usize) -> bool
        requires order { from ≤ to }
        requires within { to ≤ length self.now }
        ensures { result ≡ list_any (nat_lt 0) (take (to - from) (drop from self.now)) }
    {
        if self.apart {
            any_above(self.all, &self.each[from..to])
        } else {
            from < to && self.all > 0
        }
    }
}
