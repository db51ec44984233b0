//! What a plan promises: each part lies where hole_search says, and the new kernel's purgatory finds the regions as they
//! were digested.

ghost use Rattle.std.specs.Prelude.{◌≡◌, ℕ, Bool, List, Option, Ok};
ghost use Rattle.memory_map.specs.Maps.{MapValue};
ghost use Rattle.purgatory_link.specs.declared.region_test.RegionTest.TheVariants.{Same};
ghost use Rattle.purgatory_link.specs.RegionTest.{test};
ghost use Rattle.purgatory_link.specs.inner.Tie.{HasWanted};
ghost use Rattle.kexec_plan.specs.declared.places.PlaceRule.{PlaceRule};
ghost use Rattle.kexec_plan.specs.Requests.{Asked, Plan};
ghost use Rattle.kexec_plan.specs.Holes.{hole};
ghost use Rattle.kexec_plan.specs.inner.Holes.{IsHoleBy};
ghost use Rattle.kexec_plan.specs.Finish.{HasTableApart};
ghost use Rattle.kexec_plan.specs.Plan.{plan};

/// A planned load passes the test of its own purgatory: a memory that has what is wanted of each page of the plan's
/// segments has the regions whose digest the purgatory finds. The one premise is that the table of regions and the
/// digest have no byte in common, since the symbols of a purgatory may overlap.
pub fn planned_regions_are_same()
    ensures { (r : Asked) (map : Option MapValue) (p : Plan) (M : ℕ → List ℕ)
        → plan r map ≡ Ok p → HasTableApart p → HasWanted M p.segments
        → test M p.regions p.digest ≡ Same }
{}

/// The address at which a plan places a part by its rule is the hole of hole_search: of the addresses that fit, the least
/// or the greatest, as the rule says, and none exactly where none fits.
pub fn places_are_holes()
    ensures { (ram taken : ℕ → Bool) (r : PlaceRule) → IsHoleBy ram taken r (hole ram taken r) }
{}
