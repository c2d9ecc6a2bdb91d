//! What a plan that was read holds.

use crate::scripts::plans::plan;
use quote_plan::{Mode, Offer, PRICE_LIMIT, Plan};
use scope_rules::{Fault, Name};
use std::process::Abort;
use std::test::Fail;

/// The name with this text.
fn name(text: &[u8]) -> Result<Name, Fail> {
    Ok(Name::new(text).ok_or("a name")?)
}

/// Whether the plan has this offer at the place, with its label, which is not the one of the next place.
fn has_at(plan: &Plan, place: usize, name: Name, offer: Offer) -> bool {
    let Some(label) = plan.label_at(place) else {
        return false;
    };
    plan.named_at(place) == Some((name, offer))
        && label.name == name
        && label.due == Some(offer.end())
        && plan.is_label_at(place, &label)
        && !plan.is_label_at(place.wrapping_add(1), &label)
}

/// Whether the plan has no offer at this place.
fn ends_at(plan: &Plan, place: usize) -> bool {
    plan.len() == place && plan.named_at(place).is_none() && plan.label_at(place).is_none()
}

#[test]
fn what_a_plan_holds(rt: HostRuntime) -> Result<(), Fail> {
    let read = plan(
        &rt,
        "mode first / offer z 7 / # note / offer a fail x / offer m 999999999999",
    )?;
    let wanted = [
        (name(b"z")?, Offer::Price(7)),
        (name(b"a")?, Offer::Fails(Fault(name(b"x")?))),
        (name(b"m")?, Offer::Price(PRICE_LIMIT as i64)),
    ];
    for (place, (name, offer)) in wanted.iter().enumerate() {
        assert!(rt;
            has_at(&read, place, *name, *offer),
            "the offer at {place} is another"
        );
    }
    assert!(rt;
        read.mode() == Mode::First && !read.is_empty() && ends_at(&read, 3),
        "another mode, or more than three offers"
    );
    assert!(rt; plan(&rt, "mode all")?.is_empty(), "it has an offer");
    Ok(())
}
