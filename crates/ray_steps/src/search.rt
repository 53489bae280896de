//! The search for adjacent pairs: whether two rays have no third ray between them, and whether residuals are used.

ghost use Rattle.std.specs.Prelude.{◌≡◌, ◌<◌, ◌↔◌, length, IsTrue, IfOk, IfSome, OnOk};
ghost use Rattle.std.specs.List.{All};
ghost use Rattle.ray_steps.specs.Adjacent.{AreAdjacentLists, IsOuterOf, IsOuterAt};
ghost use Rattle.ray_steps.specs.CompatibleLists.{HaveCompatible};
ghost use Rattle.ray_steps.specs.Signs.{IsAdjacentPair};
ghost use Rattle.ray_steps.specs.Steps.{IsSearchAt};

use crate::combinations::ThirdRaySearch;
use crate::compatible::Compatible;
use crate::compatible_list::{CompatibleRays, all_supports, compatible_rays};
use crate::negated::positive_count;
use crate::negatives::are_negative;
use crate::ray_list::RayList;
use crate::signs::Sign;
use crate::step::Step;
use crate::thirds::{PairAmong, has_single, is_single, third_inside};
use out_of_memory::NoMemory;
use std::alloc::Global;
use support_bits::Support;
use support_table::{Found, Outer, PartSearch, find_adjacent};

/// Adjacent pairs are found by residuals only in steps with at least this number of positive rays, which are handled
/// together.
const SOME_POSITIVES: usize = 64;

/// Adjacent pairs are found by residuals only in steps with at least this number of pairs of a positive ray and another.
const MANY_PAIRS: usize = 1 << 16;

impl<'a, C: Compatible> Step<'a, C> {
    /// A search for the third rays of ray `i`, given compatible rays that an earlier search gathered.
    pub(crate) fn search_at(
        &self,
        alloc: Global,
        i: usize,
        compatible_list: Option<CompatibleRays>,
    ) -> Result<ThirdRaySearch, NoMemory>
        requires in_range { i < length self.now.rays }
        requires compatible_list { IfSome compatible_list (HaveCompatible self.now.rays self.now.columns) }
        ensures { IfOk result (IsSearchAt self.now i) }
    {
        let clashes = self.clashes;
        let joined = clashes.joined(alloc, &self.ray_list[i].support)?;
        Ok(ThirdRaySearch {
            joined,
            compatible_list,
            hint: 0,
        })
    }

    /// The compatible rays of a ray that clashes with the columns `joined`: those in `before` if they are for the same
    /// columns, or else gathered anew.
    fn gather(
        &self,
        alloc: Global,
        joined: &Support,
        before: Option<CompatibleRays>,
    ) -> Result<CompatibleRays, NoMemory>
        requires count { length joined.now ≡ self.now.columns }
        requires before { IfSome before (HaveCompatible self.now.rays self.now.columns) }
        ensures joined { IfOk result (λ compatible_list. compatible_list.joined ≡ joined.now) }
        ensures compatible_list { IfOk result (HaveCompatible self.now.rays self.now.columns) }
    {
        if let Some(compatible_list) = before {
            if compatible_list.joined.same(joined) {
                return Ok(compatible_list);
            }
        }
        let clashes = self.clashes;
        let joined = joined.copy(alloc)?;
        let rays = RayList {
            columns: clashes.columns(),
            items: &self.ray_list,
        };
        compatible_rays(alloc, rays, joined)
    }

    /// Whether rays `i` and `j` are adjacent. Gathers the compatible rays of ray `i` only if both have more than one
    /// column.
    pub(crate) fn is_face(
        &self,
        alloc: Global,
        i: usize,
        j: usize,
        search: &mut ThirdRaySearch,
    ) -> Result<bool, NoMemory>
        requires second { j < length self.now.rays }
        requires search { IsSearchAt self.now i search.old }
        ensures face { IfOk result (λ face. IsTrue face ↔ IsAdjacentPair self.now.pairs self.now.rays i j) }
        ensures search { OnOk result (IsSearchAt self.now i search.new) }
        ensures joined { search.new.joined ≡ search.old.joined }
    {
        let clashes = self.clashes;
        let u = &self.ray_list[i];
        let w = &self.ray_list[j];
        if has_single(&u.support, &w.support) {
            return Ok(clashes.allows(&u.support, &w.support));
        }
        let compatible_list = self.gather(alloc, &search.joined, search.compatible_list.take())?;
        let pair = PairAmong {
            compatible_list: &compatible_list,
            i,
            j,
            a: &u.support,
            b: &w.support,
        };
        let third = third_inside(pair, search.hint);
        search.compatible_list = Some(compatible_list);
        match third {
            Some(m) => {
                search.hint = m;
                Ok(false)
            }
            None => Ok(clashes.allows(&u.support, &w.support)),
        }
    }

    /// Whether to find adjacent pairs by residuals: if there are some positive rays, and many pairs of one and any ray.
    /// Affects speed alone, so the contract says nothing.
    fn is_large(&self) -> bool {
        let count = positive_count(&self.signs);
        count >= SOME_POSITIVES && count.saturating_mul(self.ray_list.len()) >= MANY_PAIRS
    }

    /// Ray `i` with the columns that clash with it.
    fn outer_at(&self, alloc: Global, i: usize) -> Result<Outer, NoMemory>
        requires { i < length self.now.rays }
        ensures { IfOk result (IsOuterAt self.now i) }
    {
        let clashes = self.clashes;
        let u = &self.ray_list[i];
        let support = u.support.copy(alloc)?;
        let joined = clashes.joined(alloc, &u.support)?;
        Ok(Outer {
            place: i,
            support,
            joined,
        })
    }

    /// The positive rays of more than one column. Which they are affects speed alone, so the contract does not say it.
    fn outers(&self, alloc: Global) -> Result<Vec<Outer>, NoMemory>
        ensures { IfOk result (λ outers. All (IsOuterOf self.now) outers.items) }
    {
        let mut outers = Vec::new(alloc);
        for i in 0..self.ray_list.len() {
            let kept = &self.ray_list[i];
            if matches!(self.signs[i], Sign::Positive(_)) && !is_single(&kept.support) {
                outers.push(self.outer_at(alloc, i)?)?;
            }
        }
        Ok(outers)
    }

    /// For each positive ray of more than one column the negative rays adjacent to it, if `is_large` holds, and else
    /// `None`. Both ways find the same pairs.
    pub(crate) fn adjacent_if_large(&self, alloc: Global) -> Result<Option<Vec<Found>>, NoMemory>
        ensures { IfOk result (λ found. IfSome found (λ lists. AreAdjacentLists self.now lists.items)) }
    {
        if !self.is_large() {
            return Ok(None);
        }
        let clashes = self.clashes;
        let ray_list = RayList {
            columns: clashes.columns(),
            items: &self.ray_list,
        };
        let table = all_supports(alloc, ray_list)?;
        let negative = are_negative(alloc, &self.signs)?;
        let outers = self.outers(alloc)?;
        let search = PartSearch {
            rays: &table,
            selected: &negative,
            outers: &outers,
            most: self.most,
        };
        let found = find_adjacent(alloc, search)?;
        Ok(Some(found))
    }
}
