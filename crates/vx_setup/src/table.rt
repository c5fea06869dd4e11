//! The table instrument that a line's JSON describes.
ghost use Rattle.std.specs.Prelude.{◌≡◌, List, Some, Ok, IfOk, IfErr};
ghost use Rattle.serde_json.specs.View.{view};
ghost use Rattle.vx_table.specs.Spelling.{rules_of};
ghost use Rattle.vx_table.specs.Table.{Rule, fresh_table};
ghost use Rattle.vx_setup.specs.Refusing.{rules_in};
ghost use Rattle.vx_setup.specs.Tabling.{NoTable};

use crate::stops::Refusal;
use serde_json::Value;
use std::alloc::Global;
use vx_script::Cause;
use vx_table::{TableErr, TableInst};

/// The instrument with the rules that a text spells: `Json` where it isn't JSON, `Rule` where it spells no table.
pub fn table_of(alloc: Global, text: &[u8]) -> Result<TableInst, Refusal>
    ensures ok { IfOk result (λ inst. (rules : List Rule) × (rules_in text.now ≡ Some (Ok rules)) × (inst ≡ fresh_table rules)) }
    ensures err { IfErr result (NoTable (rules_in text.now)) }
{
    let Ok(text) = str::from_utf8(text) else {
        return Err(Refusal::Refused(Cause::Json));
    };
    match Value::from_str(alloc, text) {
        Ok(value) => table_from(alloc, &value),
        Err(error) if error.is_memory() => Err(Refusal::NoMemory),
        Err(_) => Err(Refusal::Refused(Cause::Json)),
    }
}

/// The instrument with the rules that a value spells.
fn table_from(alloc: Global, value: &Value) -> Result<TableInst, Refusal>
    ensures ok { IfOk result (λ inst. (rules : List Rule) × (rules_of (view value.now) ≡ Ok rules) × (inst ≡ fresh_table rules)) }
    ensures err { IfErr result (NoTable (Some (rules_of (view value.now)))) }
{
    match TableInst::from_json(alloc, value) {
        Ok(inst) => Ok(inst),
        Err(why) => match why {
            TableErr::NoMemory => Err(Refusal::NoMemory),
            _ => Err(Refusal::Refused(Cause::Rule)),
        },
    }
}
