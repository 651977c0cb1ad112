//! Reading settings.

ghost use Rattle.std.specs.Prelude.{◌≡◌, ◌&&◌, IfOk, IfSome, None, Some, if◌then◌else◌, nat_le};
ghost use Rattle.toml.specs.View.{table_view, view};
ghost use Rattle.aft_conf.specs.Gives.{Gives};
ghost use Rattle.aft_conf.specs.Settings.{AreSettings, conf_of, default_settings, with_members, with_number, with_setting};

use crate::conf::Conf;
use crate::fault::ConfFault;
use aft_id::Text;
use std::alloc::Global;
use toml::{Table, Value};

/// The most nodes.
const MAX_NODES: u32 = 8;
/// The most values of a cache, and the most messages of a mailbox.
const MAX_KEPT: u32 = 4096;
/// The most background rounds.
const MAX_ROUNDS: u32 = 20;

/// Reads settings: a TOML table with any of the integer keys `nodes` (1 to 8), `cache` (1 to 4,096), `mailbox` (1 to
/// 4,096) and `rounds` (0 to 20). What isn't said has its default.
///
/// `NotToml` comes exactly where the bytes are no TOML document. `BadKey` has the first key in byte order that has
/// another name, another type or a value out of range.
pub fn read_conf(alloc: Global, bytes: &[u8]) -> Result<Conf, ConfFault>
    ensures value { Gives result (conf_of bytes.now) }
    ensures within { IfOk result AreSettings }
{
    match toml::table_from_slice(alloc, bytes) {
        Ok(table) => settings_of(alloc, &table),
        Err(e) if e.is_memory() => Err(ConfFault::Memory),
        Err(_) => Err(ConfFault::NotToml),
    }
}

/// The defaults with the members of a table.
fn settings_of(alloc: Global, table: &Table) -> Result<Conf, ConfFault>
    ensures value { Gives result (with_members (table_view table.now) default_settings) }
    ensures within { IfOk result AreSettings }
{
    let mut conf = Conf::default();
    'members: for (name, value) in table.iter() {
        let Some(next) = with_setting(conf, name.as_str(), value) else {
            let name = name.clone()?;
            return Err(ConfFault::BadKey {
                name: Text::from_string(name),
            });
        };
        conf = next;
    }
    Ok(conf)
}

/// Settings with one of them set to a value: none where no setting has the name, or it doesn't take the value.
fn with_setting(conf: Conf, name: &str, value: &Value) -> Option<Conf>
    requires { AreSettings conf }
    ensures value { result ≡ with_setting name.now (view value.now) conf }
    ensures within { IfSome result AreSettings }
{
    let number = u64::try_from(value.as_integer()?).ok()?;
    with_number(conf, name, number)
}

/// Settings with one of them set to a number.
fn with_number(conf: Conf, name: &str, number: u64) -> Option<Conf>
    requires { AreSettings conf }
    ensures value { result ≡ with_number name.now number conf }
    ensures within { IfSome result AreSettings }
{
    match name {
        "nodes" => Some(Conf {
            nodes: within(number, 1, MAX_NODES)?,
            ..conf
        }),
        "cache" => Some(Conf {
            cache: within(number, 1, MAX_KEPT)?,
            ..conf
        }),
        "mailbox" => Some(Conf {
            mailbox: within(number, 1, MAX_KEPT)?,
            ..conf
        }),
        "rounds" => Some(Conf {
            rounds: within(number, 0, MAX_ROUNDS)?,
            ..conf
        }),
        _ => None,
    }
}

/// A number, if it is within a range.
fn within(number: u64, least: u32, most: u32) -> Option<u32>
    ensures { result ≡ (if nat_le least number && nat_le number most then Some number else None) }
{
    if u64::from(least) <= number && number <= u64::from(most) {
        Some(number as u32)
    } else {
        None
    }
}
