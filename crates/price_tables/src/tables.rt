ghost use Rattle.std.specs.Prelude.{◌≡◌, ◌<◌, ◌≤◌, ◌+◌, ◌*◌, ◌++◌, ◌∷◌, [], ℕ, None, Some, IfOk, IfErr, IfSome, IfNone, OnOk, OnErr, IsSome, length, option_map, slice_get};
ghost use Rattle.std.specs.Prelude.{nat_eq, replicate, map};
ghost use Rattle.std.specs.Cmp.Lexicographic.{pointwise};
ghost use Rattle.std.specs.List.{position};
ghost use Rattle.span_base.specs.Name.{IsName};
ghost use Rattle.price_tables.specs.Tables.{nothing_tabled, count_of, centre_at, number_of, link_at, link_between, with_centre, with_link, AreLinkedBefore, AreAllLinked, IsTabled};
ghost use Rattle.price_tables.specs.Limits.{IsPriceWithin};
ghost use Rattle.price_tables.specs.Kept.{AreUnderNames, centres_of};
ghost use Rattle.price_tables.specs.Faults.{centre_fault, link_fault, IsDue};

use crate::fault::TableFault;
use crate::limits::{fare_over, price_over};
use crate::prices::{Centre, DcPrice, Fare, Pair};
use indexmap::IndexMap;
use span_base::{CENTRES, DcId, What, Word};
use std::alloc::{AllocError, Global};
use std::marker::Model;

/// How many pairs of centres there can be.
const PAIRS: usize = 256;

/// The centres in the order in which they were named, numbered from 0, and a fare for each link.
#[derive(Debug, Drop)]
pub struct Tables {
    /// Each centre under its name.
    centres: IndexMap<Vec<u8>, Centre>,
    /// The fare from `a` to `b` stands at `a * 16 + b`.
    links: Vec<Option<Fare>>,
}

impl Model for Tables {
    ghost use Rattle.std.specs.Prelude.{map};
    ghost use Rattle.price_tables.specs.Tables.{Tabled};
    ghost use Rattle.price_tables.specs.Kept.{centres_of, IsKept};

    ghost Value = { Tabled };

    ghost view = { λ t. record { centres = centres_of t.centres.entries; links = t.links.items } };

    ghost invariant = { λ t. IsKept t.centres.entries t.links.items };
}

impl Tables {
    /// Tables of no centre and no link.
    #[tactic(auto, using(crate::proofs::Keeping::nothing_kept))]
    pub fn make(alloc: Global) -> Result<Tables, AllocError>
        ensures { IfOk result (λ tables. tables ≡ nothing_tabled) }
    {
        Ok(Tables {
            centres: IndexMap::new(alloc),
            links: no_links(alloc)?,
        })
    }

    /// Adds a centre, and gives its number: how many there were before, at most 15. Refused is a
    /// price above 10^9, then a name that stands already, then a seventeenth centre; the tables
    /// are then as before.
    pub fn add_dc(
        &mut self,
        alloc: Global,
        name: &Word,
        provider: &Word,
        price: DcPrice,
    ) -> Result<DcId, TableFault>
        requires name { IsName name.now }
        requires provider { IsName provider.now }
        ensures ok { IfOk result (λ dc. (centre_fault self.old name.now price ≡ None) × (dc.0 ≡ count_of self.old)) }
        ensures added { OnOk result (self.new ≡ with_centre self.old (record { name = name.now; provider = provider.now; price = price })) }
        ensures fault { IfErr result (IsDue (centre_fault self.old name.now price)) }
        ensures unchanged { OnErr result (self.new ≡ self.old) }
    {
        if let Some(fault) = price_over(&price) {
            return Err(fault);
        }
        if self.find(name.as_bytes()).is_some() {
            return Err(TableFault::Twice);
        }
        if self.count() == CENTRES {
            return Err(TableFault::Limit {
                what: What::Centres,
                number: u128::from(CENTRES) + 1,
            });
        }
        self.put(alloc, name, provider, price)
            .map_err(TableFault::NoMemory)
    }

    /// Adds a centre that nothing speaks against.
    fn put(
        &mut self,
        alloc: Global,
        name: &Word,
        provider: &Word,
        price: DcPrice,
    ) -> Result<DcId, AllocError>
        requires name { IsName name.now }
        requires provider { IsName provider.now }
        requires price { IsPriceWithin price }
        requires new { number_of self.old name.now ≡ None }
        requires room { count_of self.old < 16 }
        ensures number { IfOk result (λ dc. dc.0 ≡ count_of self.old) }
        ensures added { OnOk result (self.new ≡ with_centre self.old (record { name = name.now; provider = provider.now; price = price })) }
        ensures unchanged { OnErr result (self.new ≡ self.old) }
    {
        let number = self.count();
        let key = Vec::from_slice(alloc, name.as_bytes())?;
        let centre = Centre {
            name: name.clone()?,
            provider: provider.clone()?,
            price,
        };
        insert_new(&mut self.centres, key, centre)?;
        Ok(DcId(number))
    }

    /// Adds a link between two centres that were added. Refused is a fare above its limits, then an
    /// unknown name, that of `from` first, then a pair that has a link already; the tables are then
    /// as before.
    pub fn add_link(&mut self, from: &Word, to: &Word, fare: Fare) -> Result<(), TableFault>
        ensures ok { IfOk result (λ _. link_fault self.old from.now to.now fare ≡ None) }
        ensures added { OnOk result ((a b : ℕ) → number_of self.old from.now ≡ Some a → number_of self.old to.now ≡ Some b → self.new ≡ with_link self.old a b fare) }
        ensures fault { IfErr result (IsDue (link_fault self.old from.now to.now fare)) }
        ensures unchanged { OnErr result (self.new ≡ self.old) }
    {
        if let Some(fault) = fare_over(&fare) {
            return Err(fault);
        }
        let Some(from) = self.find(from.as_bytes()) else {
            return Err(TableFault::UnknownFrom);
        };
        let Some(to) = self.find(to.as_bytes()) else {
            return Err(TableFault::UnknownTo);
        };
        let place = place(from, to);
        if self.links[place].is_some() {
            return Err(TableFault::Twice);
        }
        self.links[place] = Some(fare);
        Ok(())
    }

    /// The number of the centre of this name.
    #[tactic(auto, using(crate::proofs::Names::number_is))]
    pub fn find(&self, name: &[u8]) -> Option<DcId>
        ensures number { option_map (λ dc. dc.0) result ≡ number_of self.now name.now }
        ensures below { IfSome result (λ dc. dc.0 < count_of self.now) }
    {
        match self.centres.get_index_of(name) {
            Some(place) => Some(DcId(place as u8)),
            None => None,
        }
    }

    /// How many centres there are, at most 16.
    pub fn count(&self) -> u8
        ensures count { result ≡ count_of self.now }
        ensures few { result ≤ 16 }
        ensures tabled { IsTabled self.now }
    {
        self.centres.len() as u8
    }

    /// The name of a centre.
    pub fn name(&self, dc: DcId) -> &Word
        requires { dc.0 < count_of self.now }
        ensures { result.now ≡ (centre_at self.now dc.0).name }
    {
        &self.centre(dc).name
    }

    /// The name of the provider that runs a centre.
    pub fn provider(&self, dc: DcId) -> &Word
        requires { dc.0 < count_of self.now }
        ensures { result.now ≡ (centre_at self.now dc.0).provider }
    {
        &self.centre(dc).provider
    }

    /// What a centre asks.
    pub fn price(&self, dc: DcId) -> DcPrice
        requires { dc.0 < count_of self.now }
        ensures { result ≡ (centre_at self.now dc.0).price }
    {
        self.centre(dc).price
    }

    fn centre(&self, dc: DcId) -> &Centre
        requires { dc.0 < count_of self.now }
        ensures { result.now ≡ centre_at self.now dc.0 }
    {
        &self.centres[dc.0 as usize]
    }

    /// The fare of the link from one centre to another, `None` where there is no link, or no such
    /// centre.
    pub fn link(&self, from: DcId, to: DcId) -> Option<Fare>
        ensures { result ≡ link_between self.now from.0 to.0 }
    {
        let count = self.count();
        if from.0 < count && to.0 < count {
            self.fare(from, to)
        } else {
            None
        }
    }

    /// The fare of the link between two of the centres.
    fn fare(&self, from: DcId, to: DcId) -> Option<Fare>
        requires from { from.0 < 16 }
        requires to { to.0 < 16 }
        ensures { result ≡ link_at self.now from.0 to.0 }
    {
        self.links[place(from, to)]
    }

    /// The first ordered pair of centres, in lexicographic order, that has no link.
    pub fn first_missing(&self) -> Option<Pair>
        ensures missing { IfSome result (λ pair. (pair.from.0 < count_of self.now) × (pair.to.0 < count_of self.now) × (link_at self.now pair.from.0 pair.to.0 ≡ None)) }
        ensures first { IfSome result (λ pair. AreLinkedBefore self.now pair.from.0 pair.to.0) }
        ensures none { IfNone result (AreAllLinked self.now) }
    {
        for from in 0..self.count() {
            if let Some(to) = self.first_missing_from(DcId(from)) {
                return Some(Pair {
                    from: DcId(from),
                    to,
                });
            }
        }
        None
    }

    /// The first centre that this one has no link to.
    fn first_missing_from(&self, from: DcId) -> Option<DcId>
        requires { from.0 < 16 }
        ensures missing { IfSome result (λ to. (to.0 < count_of self.now) × (link_at self.now from.0 to.0 ≡ None)) }
        ensures first { IfSome result (λ to. (b : ℕ) → b < to.0 → IsSome (link_at self.now from.0 b)) }
        ensures none { IfNone result ((b : ℕ) → b < count_of self.now → IsSome (link_at self.now from.0 b)) }
    {
        for to in 0..self.count() {
            if self.fare(from, DcId(to)).is_none() {
                return Some(DcId(to));
            }
        }
        None
    }
}

/// Where the fare of a link stands.
fn place(from: DcId, to: DcId) -> usize
    requires from { from.0 < 16 }
    requires to { to.0 < 16 }
    ensures place { result ≡ from.0 * 16 + to.0 }
    ensures below { result < 256 }
{
    from.0 as usize * 16 + to.0 as usize
}

/// Puts a centre under its name, which is new, after the others.
fn insert_new(
    centres: &mut IndexMap<Vec<u8>, Centre>,
    name: Vec<u8>,
    centre: Centre,
) -> Result<(), AllocError>
    requires name { name.items ≡ centre.name }
    requires keys { AreUnderNames centres.old.entries }
    requires new { position (pointwise nat_eq centre.name) (map (λ c. c.name) (centres_of centres.old.entries)) ≡ None }
    ensures ok { OnOk result (centres.new.entries ≡ centres.old.entries ++ (name, centre) ∷ []) }
    ensures err { OnErr result (centres.new.entries ≡ centres.old.entries) }
{
    match centres.insert(name, centre) {
        Ok(_) => Ok(()),
        Err(_) => Err(AllocError),
    }
}

/// A place for each pair of centres, with no fare in any.
#[tactic(auto, using(crate::proofs::Keeping::one_more_none))]
fn no_links(alloc: Global) -> Result<Vec<Option<Fare>>, AllocError>
    ensures { IfOk result (λ links. links.items ≡ replicate 256 None) }
{
    let mut links = Vec::with_capacity(alloc, PAIRS)?;
    for _ in 0..PAIRS {
        links.push(None)?;
    }
    Ok(links)
}
