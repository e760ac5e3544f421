// Plans by file name.
ghost use Rattle.std.specs.Prelude.{◌≡◌, List, ℕ, IfOk, OnOk, OnErr};
ghost use Rattle.fj_outside.specs.Plans.{plan_under, HasPlace, KeepsPlans, ChangesPlan};

use crate::by_name::put;
use crate::plan::Plan;
use std::alloc::{AllocError, Global};
use std::collections::BTreeMap;

pub type Plans = BTreeMap<String, Plan>;

/// A copy of the plan of a name, which has a place from then on.
pub fn copy_plan(alloc: Global, plans: &mut Plans, name: &str) -> Result<Plan, AllocError>
    ensures plan { IfOk result (λ plan. plan ≡ plan_under plans.old name.now) }
    ensures place { OnOk result (HasPlace plans.new name.now) }
    ensures same { KeepsPlans plans.old plans.new }
{
    if let Some(plan) = plans.get(name) {
        return plan.try_clone();
    }
    put(alloc, plans, name, Plan::none(alloc))?;
    Ok(Plan::none(alloc))
}

/// Sets how many calls there were on the file of a name whose plan has a place. Where it has none all plans stay. It takes no memory.
pub fn set_made(plans: &mut Plans, name: &str, made: u64)
    ensures changed { HasPlace plans.old name.now →
        ChangesPlan plans.old plans.new name.now (record (plan_under plans.old name.now) { made = made }) }
    ensures kept { (HasPlace plans.old name.now → ⊥) → KeepsPlans plans.old plans.new }
{
    if let Some(plan) = plans.get_mut(name) {
        plan.set_made(made);
    }
}

/// How many calls there were on the file of a name.
fn made_under(plans: &Plans, name: &str) -> u64
    ensures { result ≡ (plan_under plans.now name.now).made }
{
    match plans.get(name) {
        Some(plan) => plan.made(),
        None => 0,
    }
}

/// Sets which calls on the file of a name fail. Want of memory changes nothing.
pub fn set_fails(
    alloc: Global,
    plans: &mut Plans,
    name: &str,
    fails: &[u64],
) -> Result<(), AllocError>
    ensures ok { OnOk result (
        ChangesPlan plans.old plans.new name.now (record (plan_under plans.old name.now) { fails = fails.now })) }
    ensures err { OnErr result (plans.new.entries ≡ plans.old.entries) }
{
    let mut plan = Plan::new(alloc, fails)?;
    plan.set_made(made_under(plans, name));
    put(alloc, plans, name, plan)?;
    Ok(())
}
