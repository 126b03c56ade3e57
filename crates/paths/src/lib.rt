#![tactic(auto)]
// Paths through the constant table: `module::inner*::item`, below a module that was imported. Ports check.rs `path`.
ghost use Rattle.std.specs.Prelude.{◌≡◌, List, ℕ};
ghost use Rattle.language.specs.Tokens.{tokens, contents};
ghost use Rattle.language.specs.Numbers.{token_of};
ghost use Rattle.language.specs.Values.{entry_at};
ghost use Rattle.language.specs.Judgements.{last_item, walk};
ghost use Rattle.constants.specs.Constants.{table_rows};
ghost use Rattle.rows.specs.Tokens.{token_as};
ghost use Rattle.values.specs.Values.{judged_as};

use constants::Constants;
use findings::What;
use rows::{Token, Tokens, Ty};
use values::{Halt, Judged};

// A path's last name is a value, which stands at the path's first name, p.
fn last_item(rows: &[u64; Constants::WORDS], p: u64, tok: Token, k: u64) -> Judged
    requires { rows.now ≡ table_rows }
    ensures { (s : List ℕ) (t : ℕ) → tok ≡ token_as (token_of s t) → result ≡ judged_as s (last_item (contents (tokens s)) p t (entry_at k).value) }
{
    let kind = constants::entry_word(rows, k, Constants::KIND);
    if kind == Ty::NONE {
        return values::error(tok, What::NotAValue);
    }
    let lo = constants::entry_word(rows, k, Constants::LOW);
    let hi = constants::entry_word(rows, k, Constants::HIGH);
    Ok(values::constant(p, kind, lo, hi))
}

// A path below a module of the constant table: so many more names, each two tokens after the one before, the first after t, which is
// the path's first name.
pub fn walk(toks: &Tokens, top: u64, t: u64, names: u64) -> Judged
    ensures { result ≡ judged_as toks.now (walk (contents (tokens toks.now)) t names top t) }
{
    let table = Constants::new();
    let rows = table.rows;
    let text = table.text;
    let mut inside = top;
    let mut at = t;
    let mut left = names;
    while 0 < left {
        let tok = toks.two_after(at);
        let k = constants::lookup(&rows, &text, inside, toks.name(tok));
        if k == 0 {
            return values::error(tok, What::UnknownItem(inside));
        }
        let kind = constants::entry_word(&rows, k, Constants::KIND);
        if left == 1 {
            return last_item(&rows, t, tok, k);
        }
        if kind != Ty::NONE {
            return values::error(tok, What::NotAModule);
        }
        inside = k;
        at += 2;
        left -= 1;
    }
    Err(Halt::Poisoned)
}
