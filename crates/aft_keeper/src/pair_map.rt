//! Pairs of name and bytes, found by name.

ghost use Rattle.std.specs.Prelude.{◌≡◌, ◌≢◌, ℕ, [], None, Some, IsSome, List, if◌then◌else◌, length, IfOk, IfErr, OnOk, OnErr, Contains, All, option_copied, nat_eq, take, take_while};
ghost use Rattle.std.specs.String.{string_cmp, string_bytes};
ghost use Rattle.std.specs.List.{starts_with};
ghost use Rattle.std.specs.Str.{bytes_eq};
ghost use Rattle.std.specs.Map.{keys_of};
ghost use Rattle.std.specs.List.Sorted.{IsStrictlySortedBy};
ghost use Rattle.aft_keeper.specs.PairMap.{IsIndexed, Stands, indexed, place_of};
ghost use Rattle.aft_keeper.specs.Contents.{IsContents, bytes_at, page_of, with_pair, without};

use crate::copies::{copy_bytes, copy_pair, copy_text, push_within};
use crate::keeper::Pair;
use aft_id::{Bytes, List};
use std::alloc::{AllocError, Global};
use std::collections::BTreeMap;
use std::collections::btree_map::Range;
use std::marker::Model;
use std::ops::Bound;

/// Pairs with distinct names that aren't empty, in the order in which they came, and an index of their
/// names. Contracts see them ascending by name.
#[derive(Debug, Drop)]
pub(crate) struct PairMap {
    alloc: Global,
    pairs: Vec<Pair>,
    places: BTreeMap<String, usize>,
}

impl Model for PairMap {
    ghost use Rattle.std.specs.Prelude as prelude;
    ghost use Rattle.aft_keeper.specs.declared.keeper.Pair.{Pair};
    ghost use Rattle.aft_keeper.specs.PairMap.{indexed, IsIndexed};

    ghost Value = { prelude.List Pair };

    ghost view = { λ m. indexed m.pairs.items m.places.entries };

    ghost invariant = { λ m. IsIndexed m.pairs.items m.places.entries };
}

impl PairMap {
    /// No pairs. Takes no memory.
    pub(crate) fn new(alloc: Global) -> PairMap
        ensures { result ≡ [] }
    {
        PairMap {
            alloc,
            pairs: Vec::new(alloc),
            places: BTreeMap::new(alloc),
        }
    }

    /// These pairs. Takes memory for the index alone. Where it runs out the pairs come back.
    pub(crate) fn from_pairs(alloc: Global, pairs: List<Pair>) -> Result<PairMap, List<Pair>>
        requires { IsContents pairs }
        ensures ok { IfOk result (λ map. map ≡ pairs) }
        ensures err { IfErr result (λ back. back ≡ pairs) }
    {
        let pairs = pairs.into_vec();
        match index_of(alloc, &pairs) {
            Ok(places) => Ok(PairMap {
                alloc,
                pairs,
                places,
            }),
            Err(AllocError) => Err(List::from_vec(pairs)),
        }
    }

    /// The bytes under a name, lent. Takes no memory.
    pub(crate) fn get(&self, name: &str) -> Option<&Bytes>
        ensures { option_copied result ≡ bytes_at name.now self.now }
    {
        let place = *self.places.get(name)?;
        Some(&self.pairs[place].bytes)
    }

    /// Sets the bytes under a name. Where memory runs out nothing changes.
    pub(crate) fn set(&mut self, name: &str, bytes: &[u8]) -> Result<(), AllocError>
        requires { name.now ≢ [] }
        ensures ok { OnOk result (self.new ≡ with_pair name.now bytes.now self.old) }
        ensures err { OnErr result (self.new ≡ self.old) }
        ensures in_order { IsContents self.new }
    {
        let copy = copy_bytes(self.alloc, bytes)?;
        match self.places.get(name) {
            Some(place) => {
                self.pairs[*place].bytes = copy;
                Ok(())
            }
            None => add(self.alloc, &mut self.pairs, &mut self.places, name, copy),
        }
    }

    /// Takes a name away, if it is there. Takes no memory.
    pub(crate) fn remove(&mut self, name: &str)
        ensures gone { self.new ≡ without name.now self.old }
        ensures in_order { IsContents self.new }
    {
        take_out(&mut self.pairs, &mut self.places, name);
    }

    /// Copies of the first `limit` pairs whose name begins with `prefix` and is greater than `after`.
    pub(crate) fn page(
        &self,
        prefix: &str,
        after: &str,
        limit: u32,
    ) -> Result<Vec<Pair>, AllocError>
        ensures { IfOk result (λ page. page.items ≡ page_of prefix.now after.now limit self.now) }
    {
        if prefix <= after {
            let start = String::from_str(self.alloc, after)?;
            let range = self
                .places
                .range((Bound::Excluded(&start), Bound::Unbounded));
            read_page(self.alloc, &self.pairs, range, prefix, limit)
        } else {
            let start = String::from_str(self.alloc, prefix)?;
            let range = self
                .places
                .range((Bound::Included(&start), Bound::Unbounded));
            read_page(self.alloc, &self.pairs, range, prefix, limit)
        }
    }

    /// The pairs, lent, in the order in which they came. Takes no memory.
    pub(crate) fn as_slice(&self) -> &[Pair]
        ensures each { All (Contains result.now) self.now }
        ensures no_others { All (Contains self.now) result.now }
        ensures as_many { length result.now ≡ length self.now }
    {
        self.pairs.as_slice()
    }
}

/// The place of each name.
fn index_of(alloc: Global, pairs: &[Pair]) -> Result<BTreeMap<String, usize>, AllocError>
    requires { IsContents pairs.now }
    ensures indexed { IfOk result (λ places. IsIndexed pairs.now places.entries) }
    ensures shows { IfOk result (λ places. indexed pairs.now places.entries ≡ pairs.now) }
{
    let mut places = BTreeMap::new(alloc);
    for (place, pair) in pairs.iter().enumerate() {
        places.insert(String::from_str(alloc, pair.name.as_str())?, place)?;
    }
    Ok(places)
}

/// Copies of the first `limit` pairs of a part of the index, up to the first name that doesn't begin with
/// `prefix`.
fn read_page(
    alloc: Global,
    pairs: &[Pair],
    range: Range<'_, String, usize>,
    prefix: &str,
    limit: u32,
) -> Result<Vec<Pair>, AllocError>
    requires { All (λ e. Stands pairs.now (string_bytes e.0) e.1) range }
    ensures { IfOk result (λ page. page.items ≡ take limit (take_while (λ p. starts_with nat_eq p.name prefix.now) (indexed pairs.now range.entry))) }
{
    let mut page = Vec::new(alloc);
    for (name, place) in range {
        if page.len() == limit as usize || !begins_with(name.as_str(), prefix) {
            break;
        }
        page.push(copy_pair(alloc, &pairs[*place])?)?;
    }
    Ok(page)
}

/// Whether a name begins with a prefix.
fn begins_with(name: &str, prefix: &str) -> bool
    ensures { result ≡ starts_with nat_eq name.now prefix.now }
{
    name.as_bytes().starts_with(prefix.as_bytes())
}

/// Adds a pair with a new name at the end, and its place to the index. Where memory runs out nothing changes.
fn add(
    alloc: Global,
    pairs: &mut Vec<Pair>,
    places: &mut BTreeMap<String, usize>,
    name: &str,
    bytes: Bytes,
) -> Result<(), AllocError>
    requires indexed { IsIndexed pairs.old.items places.old.entries }
    requires new { place_of name.now places.old.entries ≡ None }
    requires named { name.now ≢ [] }
    ensures indexed { IsIndexed pairs.new.items places.new.entries }
    ensures ok { OnOk result (indexed pairs.new.items places.new.entries ≡ with_pair name.now bytes (indexed pairs.old.items places.old.entries)) }
    ensures err { OnErr result (indexed pairs.new.items places.new.entries ≡ indexed pairs.old.items places.old.entries) }
{
    let pair = Pair {
        name: copy_text(alloc, name)?,
        bytes,
    };
    let key = String::from_str(alloc, name)?;
    pairs.reserve(1)?;
    places.insert(key, pairs.len())?;
    push_within(pairs, pair);
    Ok(())
}

/// Takes a name away, if it is there. The last pair moves to its place.
fn take_out(pairs: &mut Vec<Pair>, places: &mut BTreeMap<String, usize>, name: &str)
    requires { IsIndexed pairs.old.items places.old.entries }
    ensures indexed { IsIndexed pairs.new.items places.new.entries }
    ensures gone { indexed pairs.new.items places.new.entries ≡ without name.now (indexed pairs.old.items places.old.entries) }
{
    let Some(place) = places.remove(name) else {
        return;
    };
    pairs.swap_remove(place);
    if place < pairs.len() {
        set_place(places, pairs[place].name.as_str(), place);
    }
}

/// Sets the place of a name that the index has.
fn set_place(places: &mut BTreeMap<String, usize>, name: &str, place: usize)
    requires { IsSome (place_of name.now places.old.entries) }
    ensures ordered { IsStrictlySortedBy string_cmp (keys_of places.new.entries) }
    ensures as_many { length places.new.entries ≡ length places.old.entries }
    ensures set { (q : List ℕ) → place_of q places.new.entries ≡ (if bytes_eq name.now q then Some place else place_of q places.old.entries) }
{
    if let Some(its_place) = places.get_mut(name) {
        *its_place = place;
    }
}
