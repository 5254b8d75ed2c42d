//! Whether lists of entries are one legal history.
ghost use Rattle.std.specs.Prelude.{◌≡◌, ◌↔◌, map, All, IsTrue, IfOk};
ghost use Rattle.std.specs.List.{AllByRecursion};
ghost use Rattle.std.specs.FinMap.{from_entries};
ghost use Rattle.map_model.specs.Map.{is_done};
ghost use Rattle.map_model.specs.Weave.{all_of, draws};
ghost use Rattle.map_model.specs.Legal.{InOrder, IsPlace, IsLegal};
ghost use Rattle.map_model.specs.Apart.{IsRightWoven};
ghost use Rattle.map_model.specs.Roomed.{lists_of};

use crate::by_place::{by_place, each_drawn_once, have_places, joined_by_place, seen_by};
use crate::entry::Entry;
use crate::lists::Lists;
use crate::no_memory::NoMemory;
use crate::plain_map::{PlainMap, changes};
use std::alloc::Global;

/// All entries, by caller number and in each caller's order.
fn joined(alloc: Global, rows: &[Vec<Entry>]) -> Result<Vec<Entry>, NoMemory>
    ensures { IfOk result (λ all. all.items ≡ all_of (map (λ row. row.items) rows.now)) }
{
    let mut all = Vec::new(alloc);
    for row in rows {
        all.extend_from_slice(row)?;
    }
    Ok(all)
}

/// Whether a caller's entries are numbered from 1, drew exactly where they changed the map, and stand
/// at no place below what the caller had seen.
fn is_in_order(row: &[Entry]) -> bool
    ensures { IsTrue result ↔ InOrder 1 0 row.now }
{
    let mut serial = 1u128;
    let mut seen = 0u128;
    for entry in row {
        let is_next = entry.serial as u128 == serial
            && entry.drew == changes(entry.reply)
            && seen <= entry.place as u128;
        if !is_next {
            return false;
        }
        serial += 1;
        seen = seen_by(entry);
    }
    true
}

/// Whether each caller's entries are in order.
fn are_in_order(rows: &[Vec<Entry>]) -> bool
    ensures { IsTrue result ↔ AllByRecursion (InOrder 1 0) (map (λ row. row.items) rows.now) }
{
    for row in rows {
        if !is_in_order(row) {
            return false;
        }
    }
    true
}

/// Whether entries at places that the draws have reached each drew a place of their own, and have
/// right replies along the weave.
fn is_right_woven(alloc: Global, start: &[(u64, u64)], all: &[Entry]) -> Result<bool, NoMemory>
    requires { AllByRecursion (IsPlace (draws all.now)) all.now }
    ensures { IfOk result (λ yes. IsTrue yes ↔ IsRightWoven (from_entries start.now) all.now) }
{
    let places = by_place(alloc, all)?;
    if !each_drawn_once(&places) {
        return Ok(false);
    }
    let row = joined_by_place(alloc, &places)?;
    let mut plain = PlainMap::of_pairs(alloc, start)?;
    plain.are_replies(&row)
}

/// Whether the lists are one legal history of a map that starts with these pairs (where a key stands
/// twice, its first pair counts). Takes time in proportion to n log n, for n entries and pairs.
pub fn weave_check(alloc: Global, start: &[(u64, u64)], lists: &Lists) -> Result<bool, NoMemory>
    ensures { IfOk result (λ yes. IsTrue yes
        ↔ IsLegal (from_entries start.now) (lists_of lists.now)) }
{
    let rows = lists.rows();
    let all = joined(alloc, rows)?;
    if !are_in_order(rows) || !have_places(&all) {
        return Ok(false);
    }
    is_right_woven(alloc, start, &all)
}
