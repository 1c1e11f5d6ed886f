// Names and field of a session, and the commands that change them.
ghost use Rattle.std.specs.Prelude.{◌≡◌, IfOk, IfErr, OnErr};
ghost use Rattle.script_lang.specs.declared.commands.Command.TheVariants as commands;
ghost use Rattle.session_core.specs.Answer.{told, told_prime, told_reply};
ghost use Rattle.session_core.specs.Telling.{Stops};
ghost use Rattle.session_core.specs.Settings.{state_of, answered};

use crate::parts::told_space;
use crate::session_names::SessionNames;
use crate::stops::Stop;
use fp_field::{Prime, prime_of};
use reply_text::{Refusal, Reply};
use script_lang::Expr;
use std::alloc::Global;
use term_lang::Name;

/// The names of a session, and the field that chains are over.
#[derive(Drop)]
pub struct Settings {
    pub names: SessionNames,
    pub prime: Prime,
}

/// Goes over to another field.
pub(crate) fn change_field(settings: &mut Settings, n: u64) -> Result<Reply, Stop>
    ensures reply { IfOk result (λ r. told_reply (state_of settings.old) (commands.Field n) ≡ answered r (state_of settings.new)) }
    ensures stops { IfErr result (λ s. Stops s (told_reply (state_of settings.old) (commands.Field n))) }
    ensures kept { OnErr result (settings.new ≡ settings.old) }
{
    let prime = told_prime(n)?;
    settings.prime = prime;
    Ok(Reply::Field(prime))
}

// The prime of this value.
fn told_prime(n: u64) -> Result<Prime, Stop>
    ensures told { IfOk result (λ p. told_prime n ≡ told p) }
    ensures stops { IfErr result (λ s. Stops s (told_prime n)) }
{
    match prime_of(n) {
        Some(prime) => Ok(prime),
        None => Err(Stop::Refused(Refusal::Field(n))),
    }
}

/// Lets a name stand for a space.
pub(crate) fn name_space(
    alloc: Global,
    settings: &mut Settings,
    name: Name,
    e: &Expr,
) -> Result<Reply, Stop>
    ensures reply { IfOk result (λ r. told_reply (state_of settings.old) (commands.Setf name e.now) ≡ answered r (state_of settings.new)) }
    ensures stops { IfErr result (λ s. Stops s (told_reply (state_of settings.old) (commands.Setf name e.now))) }
    ensures kept { OnErr result (settings.new ≡ settings.old) }
{
    let term = told_space(alloc, &settings.names, e)?;
    settings.names.define(name, term)?;
    Ok(Reply::Defined(name))
}

/// The names in order.
pub(crate) fn listed_names(alloc: Global, settings: &Settings) -> Result<Reply, Stop>
    ensures reply { IfOk result (λ r. told_reply (state_of settings.now) commands.Names ≡ answered r (state_of settings.now)) }
    ensures stops { IfErr result (λ s. Stops s (told_reply (state_of settings.now) commands.Names)) }
{
    Ok(Reply::Names(settings.names.list(alloc)?))
}
