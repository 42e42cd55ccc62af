// A command is done: each call of each bundle that is new, and its house's session.
ghost use Rattle.std.specs.Prelude.{◌≡◌, [], ◌∷◌, ◌++◌, IfOk, OnOk, vec_items};
ghost use Rattle.copies.specs.Runs.{left, replied, ran, bundle_run, command_run};
ghost use Rattle.copies.specs.Views.{the_items, the_replies, the_bundle, the_command, the_sessions};

use crate::agreeing::Command;
use crate::message::{Bundle, Item, Reply, Session};
use crate::service::Service;
use crate::sessions::Sessions;
use std::alloc::{AllocError, Global};

fn add<T: Drop>(all: &mut Vec<T>, one: T) -> Result<(), AllocError>
    ensures { OnOk result (vec_items all.new ≡ vec_items all.old ++ one ∷ []) }
{
    all.push(one)?;
    Ok(())
}

// What the calls are replied, one after the other.
fn replies_to<S: Service>(
    service: &mut S,
    calls: &[Item<S::Call>],
    heap: Global,
) -> Result<Vec<Reply<S::Reply>>, S::Error>
    ensures { IfOk result (λ rs. (the_replies rs.items ≡ replied S.reply S.next (the_items calls.now) (S.state service.old)) × (S.state service.new ≡ left S.next (the_items calls.now) (S.state service.old))) }
{
    let mut replies = Vec::new(heap);
    for item in calls {
        let reply = service.exec(&item.call)?;
        add(&mut replies, Reply { id: item.id, reply })?;
    }
    Ok(replies)
}

fn bundle_runs<S: Service>(
    service: &mut S,
    bundle: &Bundle<S::Call>,
    sessions: &mut Sessions<S::Reply>,
    heap: Global,
) -> Result<(), S::Error>
    ensures { OnOk result (ran (the_sessions sessions.new) (S.state service.new) ≡ bundle_run S.reply S.next (the_bundle bundle.now) (ran (the_sessions sessions.old) (S.state service.old))) }
{
    if !bundle.house.is_house() || !sessions.is_new(bundle) {
        return Ok(());
    }
    let replies = replies_to(service, bundle.calls.as_slice(), heap)?;
    sessions.put(
        bundle.house,
        Session {
            number: bundle.number,
            replies,
        },
    );
    Ok(())
}

// Each bundle that is new is done, and its house's session is its replies.
pub fn applies<S: Service>(
    service: &mut S,
    command: &Command<S::Call>,
    sessions: &mut Sessions<S::Reply>,
    heap: Global,
) -> Result<(), S::Error>
    ensures { OnOk result (ran (the_sessions sessions.new) (S.state service.new) ≡ command_run S.reply S.next (the_command command.now) (ran (the_sessions sessions.old) (S.state service.old))) }
{
    for bundle in &command.0 {
        bundle_runs(service, bundle, sessions, heap)?;
    }
    Ok(())
}
