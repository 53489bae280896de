//! The combinations of all adjacent pairs of a positive and a negative ray.

ghost use Rattle.std.specs.Prelude.{◌+◌, ◌<◌, length, IfOk, IfErr, IfSome, OnOk};
ghost use Rattle.ray_steps.specs.Faults.{IfLarge};
ghost use Rattle.ray_steps.specs.Adjacent.{AreAdjacentLists, AreAdjacentPlaces};
ghost use Rattle.ray_steps.specs.Negatives.{AreNegatives};
ghost use Rattle.ray_steps.specs.Steps.{AreMadeBelow, AreMadeTo, AreMadeOf, IsAdjacentIfAdmissible, IsFirstLargeOf};

use crate::combinations::CombinationsSoFar;
use crate::compatible::Compatible;
use crate::found::FoundPair;
use crate::negated::has_positive;
use crate::negatives::{NegativeSearch, Negatives, first_not_excluded, negatives_of};
use crate::pairs::{SignedPair, combine_pair};
use crate::ray_list::RayList;
use crate::rays::{RayWithSupport, StepFault};
use crate::signs::Sign;
use crate::step::Step;
use std::alloc::Global;
use support_table::Found;

impl<'a, 'b, C: Compatible> FoundPair<'a, 'b, C> {
    /// Appends the combination of the two rays, if they are positive and negative and the union of their supports
    /// contains no clashing pair; then they are known to be adjacent. Fails with `Large` if an entry exceeds the limit.
    fn combine(&self, alloc: Global, made: &mut Vec<RayWithSupport>) -> Result<(), StepFault>
        requires face { IsAdjacentIfAdmissible self.now.step.now self.now.i self.now.j }
        requires made { AreMadeTo self.now.step.now self.now.i self.now.j made.old.items }
        ensures ok { OnOk result (AreMadeTo self.now.step.now self.now.i (self.now.j + 1) made.new.items) }
        ensures err { IfErr result (IfLarge (IsFirstLargeOf self.now.step.now)) }
    {
        let step = self.step;
        let Sign::Positive(at_u) = step.signs[self.i] else {
            return Ok(());
        };
        let Sign::Negative(at_w) = step.signs[self.j] else {
            return Ok(());
        };
        let clashes = step.clashes;
        let u = &step.ray_list[self.i];
        let w = &step.ray_list[self.j];
        if clashes.allows(&u.support, &w.support) {
            let pair = SignedPair { u, w, at_u, at_w };
            let kept = combine_pair(alloc, pair, step.limit)?;
            made.push(kept)?;
        }
        Ok(())
    }
}

impl<'a, C: Compatible> Step<'a, C> {
    /// Appends the combinations of ray `i`, if it is positive, with each adjacent negative ray, by a search for third
    /// rays. Fails with the first pair of which an entry exceeds the limit.
    fn combine_with(
        &self,
        alloc: Global,
        i: usize,
        negatives: &Negatives,
        made: &mut CombinationsSoFar,
    ) -> Result<(), StepFault>
        requires in_range { i < length self.now.rays }
        requires negatives { AreNegatives self.now.rays self.now.signs self.now.columns negatives.now }
        requires made { AreMadeBelow self.now i made.old }
        ensures ok { OnOk result (AreMadeBelow self.now (i + 1) made.new) }
        ensures err { IfErr result (IfLarge (IsFirstLargeOf self.now)) }
    {
        let Sign::Positive(at_u) = self.signs[i] else {
            return Ok(());
        };
        let u = &self.ray_list[i];
        let mut search = self.search_at(alloc, i, made.compatible_list.take())?;
        let places = negatives.places.as_slice();
        let table = &negatives.table;
        let near = NegativeSearch {
            table,
            support: &u.support,
            joined: &search.joined,
            most: self.most,
        };
        let mut m = first_not_excluded(near, 0);
        while m < places.len() {
            let j = places[m];
            if let Sign::Negative(at_w) = self.signs[j] {
                if self.is_face(alloc, i, j, &mut search)? {
                    let w = &self.ray_list[j];
                    let pair = SignedPair { u, w, at_u, at_w };
                    let kept = combine_pair(alloc, pair, self.limit)?;
                    made.ray_list.push(kept)?;
                }
            }
            let next = NegativeSearch {
                table,
                support: &u.support,
                joined: &search.joined,
                most: self.most,
            };
            m = first_not_excluded(next, m + 1);
        }
        made.compatible_list = search.compatible_list;
        Ok(())
    }

    /// Appends the combinations of ray `i`, if it is positive, with the rays `places`, among which are all negative rays
    /// adjacent to it. Fails with `Large` at the first pair of which an entry exceeds the limit.
    fn combine_found(
        &self,
        alloc: Global,
        i: usize,
        places: &[usize],
        made: &mut Vec<RayWithSupport>,
    ) -> Result<(), StepFault>
        requires in_range { i < length self.now.rays }
        requires places { AreAdjacentPlaces self.now i places.now }
        requires made { AreMadeTo self.now i 0 made.old.items }
        ensures ok { OnOk result (AreMadeTo self.now (i + 1) 0 made.new.items) }
        ensures err { IfErr result (IfLarge (IsFirstLargeOf self.now)) }
    {
        let Sign::Positive(_) = self.signs[i] else {
            return Ok(());
        };
        for place in places {
            let pair = FoundPair {
                step: self,
                i,
                j: *place,
            };
            pair.combine(alloc, made)?;
        }
        Ok(())
    }

    /// Appends the combinations of ray `i`: with the rays that `found` has for it, if there is such a list, otherwise by
    /// a search for third rays. Fails with `Large` at the first pair of which an entry exceeds the limit.
    fn combine_one(
        &self,
        alloc: Global,
        i: usize,
        negatives: &Negatives,
        found: &Option<Vec<Found>>,
        made: &mut CombinationsSoFar,
    ) -> Result<(), StepFault>
        requires in_range { i < length self.now.rays }
        requires negatives { AreNegatives self.now.rays self.now.signs self.now.columns negatives.now }
        requires found { IfSome found.now (λ lists. AreAdjacentLists self.now lists.items) }
        requires made { AreMadeBelow self.now i made.old }
        ensures ok { OnOk result (AreMadeBelow self.now (i + 1) made.new) }
        ensures err { IfErr result (IfLarge (IsFirstLargeOf self.now)) }
    {
        if let Some(lists) = found {
            if let Some(places) = &lists[i].places {
                return self.combine_found(alloc, i, places, &mut made.ray_list);
            }
        }
        self.combine_with(alloc, i, negatives, made)
    }

    /// The combinations of all adjacent pairs, each once, by the negative rays `negatives` and the adjacent rays `found`,
    /// if these were looked for. Fails with `Large` at the first pair of which an entry exceeds the limit.
    fn combine_each(
        &self,
        alloc: Global,
        negatives: &Negatives,
        found: &Option<Vec<Found>>,
    ) -> Result<Vec<RayWithSupport>, StepFault>
        requires negatives { AreNegatives self.now.rays self.now.signs self.now.columns negatives.now }
        requires found { IfSome found.now (λ lists. AreAdjacentLists self.now lists.items) }
        ensures ok { IfOk result (λ made. AreMadeOf self.now made.items) }
        ensures err { IfErr result (IfLarge (IsFirstLargeOf self.now)) }
    {
        let mut made = CombinationsSoFar {
            ray_list: Vec::with_capacity(alloc, self.ray_list.len())?,
            compatible_list: None,
        };
        for i in 0..self.ray_list.len() {
            self.combine_one(alloc, i, negatives, found, &mut made)?;
        }
        Ok(made.ray_list)
    }

    /// The combinations of all adjacent pairs of a positive and a negative ray, each once. Fails with the first pair of
    /// which an entry exceeds the limit.
    pub fn combine_all(&self, alloc: Global) -> Result<Vec<RayWithSupport>, StepFault>
        ensures ok { IfOk result (λ made. AreMadeOf self.now made.items) }
        ensures err { IfErr result (IfLarge (IsFirstLargeOf self.now)) }
    {
        if !has_positive(&self.signs) {
            // there are no pairs, and every ray may be kept: make room for all
            let made = Vec::with_capacity(alloc, self.ray_list.len())?;
            return Ok(made);
        }
        let clashes = self.clashes;
        let rays = RayList {
            columns: clashes.columns(),
            items: &self.ray_list,
        };
        let negatives = negatives_of(alloc, rays, &self.signs)?;
        let found = self.adjacent_if_large(alloc)?;
        self.combine_each(alloc, &negatives, &found)
    }
}
