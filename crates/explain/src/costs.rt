//! What the initializers of accepted classes cost and leave.

ghost use Rattle.std.specs.Prelude.{◌≡◌, ◌++◌, length, IfOk, OnOk};
ghost use Rattle.std.specs.List.{flat_map};
ghost use Rattle.std.specs.List.Sorted.{IsPermutation, IsSorted, IsStable};
ghost use Rattle.std.specs.Option.{option_to_list};
ghost use Rattle.machine.specs.Linked.{program_of};
ghost use Rattle.region_shape.specs.Regions.{environment_of};
ghost use Rattle.explain.specs.Costs.{by_cost, AreCosts, AreDearestFirst, IsCost, IsCostOf};
ghost use Rattle.explain.specs.Reruns.{IsLeast, without};

use crate::counting::{count_at, counts};
use crate::reruns::{all_regions, least_without};
use crate::run_lines::made_count;
use crate::sizes::region_size;
use initializer_analysis::verdict::Verdict;
use object_graph::Image;
use region_shape::regions::Regions;
use std::alloc::{AllocError, Global};

/// What the initializer of an accepted class costs and leaves.
#[derive(Clone, Copy)]
pub struct Cost {
    /// The class's number.
    pub class: u32,
    /// In instructions and elements of new arrays.
    pub cost: u64,
    /// How many objects it made.
    pub made: u64,
    /// How many of these are kept.
    pub kept: u32,
    /// How many bytes of an image its region takes.
    pub bytes: u64,
}

/// What the initializer of a class costs and leaves, where it costs so much.
fn cost_at(
    alloc: Global,
    image: &Image,
    class: u32,
    budget: u64,
    cost: u64,
) -> Result<Cost, AllocError>
    requires { IsLeast (program_of image.now.program) (without (environment_of image.now.regions) class) class budget
        cost }
    ensures { IfOk result (IsCost image.now budget class) }
{
    let made = made_count(image, class);
    let kept = image.object_count(class);
    let bytes = region_size(alloc, image, class)?;
    Ok(Cost {
        class,
        cost,
        made,
        kept,
        bytes,
    })
}

/// What the initializer of a class costs and leaves, if it is accepted; the cost is searched from a guess.
fn cost_of(
    alloc: Global,
    image: &Image,
    regions: &mut Regions,
    budget: u64,
    class: u32,
    verdict: Verdict,
    guess: u64,
) -> Result<Option<Cost>, AllocError>
    requires { environment_of regions.old ≡ environment_of image.now.regions }
    ensures same { environment_of regions.new ≡ environment_of image.now.regions }
    ensures cost { IfOk result (IsCostOf image.now budget class verdict) }
{
    match verdict {
        Verdict::Wave(_) => {
            let cost = least_without(alloc, image.program(), regions, class, budget, guess)?;
            let found = cost_at(alloc, image, class, budget, cost)?;
            Ok(Some(found))
        }
        Verdict::Refused(_) => Ok(None),
    }
}

/// By class, what its initializer costs and leaves, where it is accepted.
///
/// # Errors
/// Where memory runs out.
#[tactic(auto, using(crate::proofs::CostsLemmas::costs_more))]
pub fn costs_of(
    alloc: Global,
    image: &Image,
    verdicts: &[Verdict],
    budget: u64,
) -> Result<Vec<Option<Cost>>, AllocError>
    requires { length verdicts.now ≡ length image.now.program.classes }
    ensures { IfOk result (λ costs. AreCosts image.now verdicts.now budget costs.items) }
{
    let guesses = counts(alloc, image)?;
    let mut regions = all_regions(alloc, image)?;
    let mut costs = Vec::with_capacity(alloc, verdicts.len())?;
    for class in 0..image.program().given_count() {
        let verdict = verdicts[class as usize];
        let guess = count_at(guesses.as_slice(), class);
        let cost = cost_of(alloc, image, &mut regions, budget, class, verdict, guess)?;
        costs.push(cost)?;
    }
    Ok(costs)
}

/// Puts costs in order, the greatest first; of equal ones the order stays.
fn sort(costs: &mut Vec<Cost>) -> Result<(), AllocError>
    ensures permutation { IsPermutation costs.old.items costs.new.items }
    ensures sorted { OnOk result (IsSorted by_cost costs.new.items) }
    ensures stable { OnOk result (IsStable by_cost costs.old.items costs.new.items) }
{
    costs.sort_by(|one, other| other.cost.cmp(&one.cost))?;
    Ok(())
}

/// The costs of the classes that have one.
fn those_with_costs(alloc: Global, costs: &[Option<Cost>]) -> Result<Vec<Cost>, AllocError>
    ensures { IfOk result (λ found. found.items ≡ flat_map option_to_list costs.now) }
{
    let mut found = Vec::new(alloc);
    for cost in costs {
        add_cost(*cost, &mut found)?;
    }
    Ok(found)
}

/// Adds a cost, if there is one.
fn add_cost(cost: Option<Cost>, found: &mut Vec<Cost>) -> Result<(), AllocError>
    ensures { OnOk result (found.new.items ≡ found.old.items ++ option_to_list cost) }
{
    match cost {
        Some(cost) => {
            found.push(cost)?;
            Ok(())
        }
        None => Ok(()),
    }
}

/// The costs of the classes that have one, the greatest first; of equal ones that of the lesser class.
///
/// # Errors
/// Where memory runs out.
pub fn dearest_first(alloc: Global, costs: &[Option<Cost>]) -> Result<Vec<Cost>, AllocError>
    ensures { IfOk result (λ dearest. AreDearestFirst costs.now dearest.items) }
{
    let mut found = those_with_costs(alloc, costs)?;
    sort(&mut found)?;
    Ok(found)
}
