//! The servers of the cluster, as an object by their ids.
ghost use Rattle.std.specs.Prelude.{◌≡◌, ◌∷◌, [], flat_map};
ghost use Rattle.json.specs.Token.{boolean, key, string};
ghost use Rattle.rq_replies.specs.Output.{Adds};
ghost use Rattle.rq_replies.specs.Reply as spec;

use crate::output::Output;
use rq_request::Member;
use rq_values::{Addr, Id};
use std::alloc::AllocError;

/// A member for each server, in the order of the list.
pub(crate) fn write_servers(
    servers: &[(Member, bool)],
    output: &mut Output,
) -> Result<(), AllocError>
    ensures { Adds result output.old output.new (flat_map spec.server_tokens servers.now) }
{
    for server in servers {
        write_server(&server.0, server.1, output)?;
    }
    Ok(())
}

fn write_server(member: &Member, leads: bool, output: &mut Output) -> Result<(), AllocError>
    ensures { Adds result output.old output.new (spec.server_tokens (member.now, leads)) }
{
    output.key(id_text(&member.id))?;
    write_object(address_text(&member.http), leads, member.voter, output)
}

fn write_object(
    address: &str,
    leads: bool,
    votes: bool,
    output: &mut Output,
) -> Result<(), AllocError>
    ensures { Adds result output.old output.new (spec.object_of (spec.server_members address.now leads votes)) }
{
    output.begin_object()?;
    write_members(address, leads, votes, output)?;
    output.end_object()
}

fn write_members(
    address: &str,
    leads: bool,
    votes: bool,
    output: &mut Output,
) -> Result<(), AllocError>
    ensures { Adds result output.old output.new (spec.server_members address.now leads votes) }
{
    write_text("addr", address, output)?;
    write_flags(leads, votes, output)
}

fn write_flags(leads: bool, votes: bool, output: &mut Output) -> Result<(), AllocError>
    ensures { Adds result output.old output.new (spec.server_flags leads votes) }
{
    write_flag("leader", leads, output)?;
    write_flag("voter", votes, output)
}

fn write_text(name: &str, text: &str, output: &mut Output) -> Result<(), AllocError>
    ensures { Adds result output.old output.new (key name.now ∷ string text.now ∷ []) }
{
    output.key(name)?;
    output.string(text)
}

fn write_flag(name: &str, flag: bool, output: &mut Output) -> Result<(), AllocError>
    ensures { Adds result output.old output.new (key name.now ∷ boolean flag ∷ []) }
{
    output.key(name)?;
    output.bool(flag)
}

/// An id as the `str` that it is.
fn id_text(id: &Id) -> &str
    ensures { result.now ≡ id.now }
{
    // An id is ASCII: `bytes` says so.
    unsafe { std::str::from_utf8_unchecked(id.bytes()) }
}

/// An address as the `str` that it is.
fn address_text(address: &Addr) -> &str
    ensures { result.now ≡ address.now }
{
    // An address is ASCII: `bytes` says so.
    unsafe { std::str::from_utf8_unchecked(address.bytes()) }
}
