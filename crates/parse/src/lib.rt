#![tactic(auto)]
// The parser: trees as flat nodes. Ports parse.rs and ast.rs; the definitions are `Sentences` of the crate `language`.
// A node is stored after its children, so a child is named by its row, which is always a smaller number. An argument names the
// next one by its row too: it is told that number once the next one is stored. A store past the table's end is lost, and every
// node is counted. Expressions, lists of arguments and arguments call each other: each list that is opened leaves one list less to
// open.
ghost use Rattle.std.specs.Prelude.{◌≡◌, List, [], ◌∷◌, ◌++◌, ℕ, ◌+◌, ◌*◌, ◌<◌, ◌≤◌, length};
ghost use Rattle.language.specs.Tables.{token_width};
ghost use Rattle.language.specs.Tokens.{Content, most_tokens};
ghost use Rattle.language.specs.Sentences.{Stmt, Node, node, most_steps, primary, address, named', links, chain_at, slashes, expr_at, arg_of, list_at, ended, import_at, let_at, stmt_at, program};
ghost use Rattle.parse.specs.Entry.{GivesUp, Lexes, Trees, ParseSource};
ghost use Rattle.rows.specs.Tokens.{kind_at};
ghost use Rattle.parse.specs.Parsing.{literal_kind, port_at, port_as, is_named, arg_kind, value_from, Room, Rep, Holds, Pushes, Links, with_stmt, number_of, kind_of, place_of, row_plus, expr_stmt, After, AfterExpr, AfterArgs, MetExpr, MetArgs, MetStmt, MetAll, Ahead, AheadList, row_verdict, verdict_at};

use rows::{NodeKind, NodeRow, Tok, TokKind, TokenRow, Verdict};

// Why a source is refused, and at which token. Ports parse.rs `ParseErrorKind`.
#[derive(Clone, Copy, PartialEq, Eq)]
pub enum ParseError {
    UnexpectedToken(usize),
    // a port above 65,535
    IntOutOfRange(usize),
    // one step or one list more than there may be
    TooDeep(usize),
}

// A part of the grammar that was read: the next token, how many nodes there are then, and the steps that are left.
#[derive(Clone, Copy, PartialEq, Eq)]
pub struct Parsed {
    pub next: usize,
    pub nodes: usize,
    pub steps: usize,
}

// The same of arguments, with the row of the first one.
#[derive(Clone, Copy, PartialEq, Eq)]
pub struct Listed {
    pub next: usize,
    pub nodes: usize,
    pub first: Option<usize>,
}

// How an argument begins: the kind of its node, and the token where its value starts.
#[derive(Clone, Copy)]
pub struct ArgHead {
    pub kind: u64,
    pub value: usize,
}

// The expression that is being parsed.
#[derive(Clone, Copy)]
pub struct Parser {
    // its first token
    pub first: usize,
    // how many lists may still be opened
    pub lists: usize,
    // how many steps are left
    pub steps: usize,
}

impl Parser {
    // How many steps one expression may have, and how many lists may be open at once.
    pub const MOST_STEPS: usize = 64;

    pub const MOST_LISTS: usize = 32;

    pub const LARGEST_PORT: u64 = 65535;
}

// ---- tokens

// A port is a decimal up to 65,535.
fn port(toks: &[u64], at: usize) -> Result<(), ParseError>
    requires { at ≤ 4294967296 }
    ensures { result ≡ port_as at (port_at toks.now at) }
{
    let Tok::DecLiteral(v) = rows::tok_at(toks, at) else {
        return Err(ParseError::UnexpectedToken(at));
    };
    if v.hi == 0 {
        if v.lo <= Parser::LARGEST_PORT {
            return Ok(());
        }
    }
    Err(ParseError::IntOutOfRange(at))
}

// ---- nodes

// Writes a node after `count` others. A struct that held the table and the count would make each function here promise besides that
// the table is still the one that was lent, so both are passed.
fn push(
    nodes: &mut [u64],
    count: usize,
    kind: u64,
    tok: usize,
    first: usize,
    second: usize,
    third: usize,
)
    requires { count ≤ 4294967296 }
    ensures { Pushes nodes.old nodes.new count (node kind tok first second third) }
{
    let row: [u64; NodeRow::WORDS] = [kind, tok as u64, first as u64, second as u64, third as u64];
    table::put_row(nodes, count, &row);
}

// Tells the argument in a row which one comes next, by that one's row plus 1.
fn link(nodes: &mut [u64], row: usize, next: usize)
    requires { row ≤ 4294967296 }
    ensures { Links nodes.old nodes.new row next }
{
    let i = NodeRow::WORDS * row;
    if i + NodeRow::WORDS <= nodes.len() {
        nodes[i + NodeRow::SECOND] = next as u64;
    }
}

// The row of the first argument plus 1, 0 where there is none: so a call's node has it, which the C interface fixes.
fn row_plus(first: Option<usize>) -> usize
    requires { row_plus first ≤ 4294967296 }
    ensures { result ≡ row_plus first }
{
    match first {
        Some(row) => row + 1,
        None => 0,
    }
}

// ---- primaries

// The names of a path from its first `::` on, and the path's node. The path's first name is the token `at`.
#[tactic(auto, using(crate::proofs::Looks::eof_or_row))]
fn module_path(
    toks: &[u64],
    nodes: &mut [u64],
    at: usize,
    count: usize,
    steps: usize,
) -> Result<Parsed, ParseError>
    requires room { Room (length toks.now) at count }
    requires at_value { (kind_at toks.now at ≡ 13) × (kind_at toks.now (at + 1) ≡ 5) }
    ensures ahead { Ahead 1 (length toks.now) at count steps result }
    ensures after { After toks.now nodes.old count (λ ts ns. MetExpr result nodes.new ns at (named' ts at steps)) }
{
    let mut next = at + 1;
    let mut have = count;
    let mut names: usize = 0;
    while rows::kind_at(toks, next) == TokKind::DOUBLE_COLON {
        if rows::kind_at(toks, next + 1) != TokKind::IDENTIFIER {
            return Err(ParseError::UnexpectedToken(next + 1));
        }
        push(nodes, have, NodeKind::NAME, next + 1, 0, 0, 0);
        have += 1;
        names += 1;
        next += 2;
    }
    push(nodes, have, NodeKind::PATH, at, names, 0, 0);
    Ok(Parsed {
        next,
        nodes: have + 1,
        steps,
    })
}

// An address, and its port where a `:` follows.
fn address(
    toks: &[u64],
    nodes: &mut [u64],
    at: usize,
    count: usize,
    steps: usize,
) -> Result<Parsed, ParseError>
    requires room { Room (length toks.now) at count }
    requires at_value { kind_at toks.now at ≡ 15 }
    ensures ahead { Ahead 1 (length toks.now) at count steps result }
    ensures after { After toks.now nodes.old count (λ ts ns. MetExpr result nodes.new ns at (address ts at steps)) }
{
    if rows::kind_at(toks, at + 1) != TokKind::COLON {
        push(nodes, count, NodeKind::LITERAL, at, 0, 0, 0);
        return Ok(Parsed {
            next: at + 1,
            nodes: count + 1,
            steps,
        });
    }
    port(toks, at + 2)?;
    push(nodes, count, NodeKind::SOCK4, at, 0, 0, 0);
    Ok(Parsed {
        next: at + 3,
        nodes: count + 1,
        steps,
    })
}

// A bool, a string or an integer.
fn is_literal(kind: u64) -> bool
    ensures { result ≡ literal_kind kind }
{
    (kind == TokKind::BOOLEAN_LITERAL)
        | ((kind == TokKind::STRING_LITERAL)
            | ((kind == TokKind::HEX_LITERAL) | (kind == TokKind::DEC_LITERAL)))
}

// A literal, an address, a name or a path.
fn primary(
    toks: &[u64],
    nodes: &mut [u64],
    at: usize,
    count: usize,
    steps: usize,
) -> Result<Parsed, ParseError>
    requires { Room (length toks.now) at count }
    ensures ahead { Ahead 1 (length toks.now) at count steps result }
    ensures after { After toks.now nodes.old count (λ ts ns. MetExpr result nodes.new ns at (primary ts at steps)) }
{
    let kind = rows::kind_at(toks, at);
    if is_literal(kind) {
        push(nodes, count, NodeKind::LITERAL, at, 0, 0, 0);
        return Ok(Parsed {
            next: at + 1,
            nodes: count + 1,
            steps,
        });
    }
    match kind {
        TokKind::IPV4_LITERAL => address(toks, nodes, at, count, steps),
        TokKind::IDENTIFIER => {
            if rows::kind_at(toks, at + 1) == TokKind::DOUBLE_COLON {
                return module_path(toks, nodes, at, count, steps);
            }
            push(nodes, count, NodeKind::LOCAL, at, 0, 0, 0);
            Ok(Parsed {
                next: at + 1,
                nodes: count + 1,
                steps,
            })
        }
        _ => Err(ParseError::UnexpectedToken(at)),
    }
}

// ---- expressions

// An expression, where `left` more lists may be opened.
#[cycle(arg_chain_expr_links_list_slashes)]
fn expr(
    toks: &[u64],
    nodes: &mut [u64],
    at: usize,
    count: usize,
    left: usize,
) -> Result<Parsed, ParseError>
    requires { Room (length toks.now) at count }
    ensures ahead { Ahead 1 (length toks.now) at count most_steps result }
    ensures after { After toks.now nodes.old count (λ ts ns. MetExpr result nodes.new ns at (expr_at ts left at)) }
{
    let operand = chain(toks, nodes, at, count, left, Parser::MOST_STEPS)?;
    let p = Parser {
        first: at,
        lists: left,
        steps: operand.steps,
    };
    slashes(toks, nodes, p, operand.next, operand.nodes)
}

// What follows the first operand: `/` and an operand, again and again. It groups to the left, so the last node so far is
// the left operand of the next `/`.
#[cycle(arg_chain_expr_links_list_slashes)]
#[tactic(auto, using(crate::proofs::Looks::eof_or_row))]
fn slashes(
    toks: &[u64],
    nodes: &mut [u64],
    p: Parser,
    start: usize,
    count: usize,
) -> Result<Parsed, ParseError>
    requires { Room (length toks.now) start count × (1 ≤ count) }
    ensures ahead { Ahead 0 (length toks.now) start count p.steps result }
    ensures after_expr { AfterExpr toks.now nodes.old count p.first (λ ts ns e. (k : ℕ) → p.steps < k → MetExpr result nodes.new ns p.first (slashes ts (chain_at ts p.lists) k e start p.steps)) }
{
    let mut at = start;
    let mut have = count;
    let mut more = p.steps;
    while rows::kind_at(toks, at) == TokKind::SLASH {
        if more == 0 {
            return Err(ParseError::TooDeep(at));
        }
        let right = chain(toks, nodes, at + 1, have, p.lists, more - 1)?;
        let m = right.nodes;
        push(nodes, m, NodeKind::SLASH, p.first, have - 1, m - 1, 0);
        at = right.next;
        have = m + 1;
        more = right.steps;
    }
    Ok(Parsed {
        next: at,
        nodes: have,
        steps: more,
    })
}

// One operand of `/`.
#[cycle(arg_chain_expr_links_list_slashes)]
fn chain(
    toks: &[u64],
    nodes: &mut [u64],
    at: usize,
    count: usize,
    left: usize,
    steps: usize,
) -> Result<Parsed, ParseError>
    requires { Room (length toks.now) at count }
    ensures ahead { Ahead 1 (length toks.now) at count steps result }
    ensures after { After toks.now nodes.old count (λ ts ns. MetExpr result nodes.new ns at (chain_at ts left steps at)) }
{
    let operand = primary(toks, nodes, at, count, steps)?;
    let p = Parser {
        first: at,
        lists: left,
        steps,
    };
    links(toks, nodes, p, operand.next, operand.nodes)
}

// The calls and members after a primary, which bind tightest: each is a step, and has the last node so far as its callee
// or its object.
#[cycle(arg_chain_expr_links_list_slashes)]
fn links(
    toks: &[u64],
    nodes: &mut [u64],
    p: Parser,
    start: usize,
    count: usize,
) -> Result<Parsed, ParseError>
    requires { Room (length toks.now) start count × (1 ≤ count) }
    ensures ahead { Ahead 0 (length toks.now) start count p.steps result }
    ensures after_expr { AfterExpr toks.now nodes.old count p.first (λ ts ns e. MetExpr result nodes.new ns p.first (links ts (list_at ts p.lists) p.steps e start)) }
{
    let mut at = start;
    let mut have = count;
    let mut more = p.steps;
    loop {
        let t = rows::kind_at(toks, at);
        if t == TokKind::LPAREN {
            if more == 0 {
                return Err(ParseError::TooDeep(at));
            }
            let inside = list(toks, nodes, at, have, p.lists)?;
            let m = inside.nodes;
            let first = row_plus(inside.first);
            push(nodes, m, NodeKind::CALL, p.first, have - 1, first, at);
            at = inside.next;
            have = m + 1;
            more -= 1;
        } else if t == TokKind::DOT {
            if more == 0 {
                return Err(ParseError::TooDeep(at));
            }
            if rows::kind_at(toks, at + 1) != TokKind::IDENTIFIER {
                return Err(ParseError::UnexpectedToken(at + 1));
            }
            push(nodes, have, NodeKind::MEMBER, p.first, have - 1, at + 1, 0);
            at += 2;
            have += 1;
            more -= 1;
        } else {
            return Ok(Parsed {
                next: at,
                nodes: have,
                steps: more,
            });
        }
    }
}

// ---- arguments

// A bare name before `:` names its argument.
fn arg_head(toks: &[u64], at: usize) -> ArgHead
    requires { (token_width * at ≤ length toks.now) × (length toks.now ≤ token_width * most_tokens) }
    ensures kind_value { (result.kind ≡ arg_kind (is_named toks.now at)) × (result.value ≡ value_from (is_named toks.now at) at) }
    ensures at_le_value { (at ≤ result.value) × (token_width * result.value ≤ length toks.now) }
{
    if rows::kind_at(toks, at) == TokKind::IDENTIFIER {
        if rows::kind_at(toks, at + 1) == TokKind::COLON {
            return ArgHead {
                kind: NodeKind::NAMED_ARGUMENT,
                value: at + 2,
            };
        }
    }
    ArgHead {
        kind: NodeKind::ARGUMENT,
        value: at,
    }
}

// One argument, after others of which the first has the row `first`. The one before it stands in the last row so far. Its own node comes on top of the value's, so the bound on nodes starts from one more; the `,` or `)` that
// follows makes up for it.
#[cycle(arg_chain_expr_links_list_slashes)]
fn arg(
    toks: &[u64],
    nodes: &mut [u64],
    at: usize,
    count: usize,
    left: usize,
    first: Option<usize>,
) -> Result<Listed, ParseError>
    requires { Room (length toks.now) at count × (row_plus first ≤ count) }
    ensures ahead_list { AheadList 0 (length toks.now) at (count + 1) result }
    ensures after_args { AfterArgs toks.now nodes.old count (row_plus first) (λ ts ns g. MetArgs result nodes.new ns (arg_of ts (expr_at ts left) g at)) }
{
    let head = arg_head(toks, at);
    let value = expr(toks, nodes, head.value, count, left)?;
    let next = value.next;
    let m = value.nodes;
    push(nodes, m, head.kind, at, m - 1, 0, 0);
    match first {
        None => Ok(Listed {
            next,
            nodes: m + 1,
            first: Some(m),
        }),
        Some(_) => {
            link(nodes, count - 1, m + 1);
            Ok(Listed {
                next,
                nodes: m + 1,
                first,
            })
        }
    }
}

// The arguments from the `(` at `start` to its `)`.
#[cycle(arg_chain_expr_links_list_slashes)]
#[tactic(auto, using(crate::proofs::Looks::eof_or_row))]
fn list(
    toks: &[u64],
    nodes: &mut [u64],
    start: usize,
    count: usize,
    left: usize,
) -> Result<Listed, ParseError>
    requires { Room (length toks.now) start count × (kind_at toks.now start ≡ 2) }
    ensures ahead_list { AheadList 1 (length toks.now) start count result }
    ensures after { After toks.now nodes.old count (λ ts ns. MetArgs result nodes.new ns (list_at ts left start)) }
{
    if left == 0 {
        return Err(ParseError::TooDeep(start));
    }
    let mut at = start + 1;
    let mut have = count;
    let mut first: Option<usize> = None;
    while rows::kind_at(toks, at) != TokKind::RPAREN {
        let so_far = arg(toks, nodes, at, have, left - 1, first)?;
        let next = so_far.next;
        have = so_far.nodes;
        first = so_far.first;
        let t = rows::kind_at(toks, next);
        if t == TokKind::COMMA {
            at = next + 1;
        } else if t == TokKind::RPAREN {
            return Ok(Listed {
                next: next + 1,
                nodes: have,
                first,
            });
        } else {
            return Err(ParseError::UnexpectedToken(next));
        }
    }
    Ok(Listed {
        next: at + 1,
        nodes: have,
        first,
    })
}

// ---- statements

// The `;` after a statement, and the statement's node.
#[tactic(auto, using(crate::proofs::Looks::eof_or_row))]
fn end_stmt(
    toks: &[u64],
    nodes: &mut [u64],
    at: usize,
    count: usize,
    kind: u64,
    tok: usize,
    first: usize,
) -> Result<Parsed, ParseError>
    requires { Room (length toks.now) at count }
    ensures ahead { Ahead 1 (length toks.now) at count 0 result }
    ensures after { After toks.now nodes.old count (λ ts ms. (ns : List Node) (s : Stmt) → ms ++ node kind tok first 0 0 ∷ [] ≡ with_stmt ns s → MetStmt result nodes.new ns (ended ts s at)) }
{
    if rows::kind_at(toks, at) != TokKind::SEMI_COLON {
        return Err(ParseError::UnexpectedToken(at));
    }
    push(nodes, count, kind, tok, first, 0, 0);
    Ok(Parsed {
        next: at + 1,
        nodes: count + 1,
        steps: 0,
    })
}

// `import` name `;`
#[tactic(auto, using(crate::proofs::Looks::eof_or_row))]
fn import_stmt(
    toks: &[u64],
    nodes: &mut [u64],
    at: usize,
    count: usize,
) -> Result<Parsed, ParseError>
    requires { Room (length toks.now) at count × (kind_at toks.now at ≡ 11) }
    ensures ahead { Ahead 1 (length toks.now) at count 0 result }
    ensures after { After toks.now nodes.old count (λ ts ns. MetStmt result nodes.new ns (import_at ts at)) }
{
    if rows::kind_at(toks, at + 1) != TokKind::IDENTIFIER {
        return Err(ParseError::UnexpectedToken(at + 1));
    }
    end_stmt(toks, nodes, at + 2, count, NodeKind::IMPORT, at + 1, 0)
}

// `let` name `=` expression `;`
#[tactic(auto, using(crate::proofs::Looks::eof_or_row))]
fn let_stmt(toks: &[u64], nodes: &mut [u64], at: usize, count: usize) -> Result<Parsed, ParseError>
    requires { Room (length toks.now) at count × (kind_at toks.now at ≡ 12) }
    ensures ahead { Ahead 1 (length toks.now) at count 0 result }
    ensures after { After toks.now nodes.old count (λ ts ns. MetStmt result nodes.new ns (let_at ts at)) }
{
    if rows::kind_at(toks, at + 1) != TokKind::IDENTIFIER {
        return Err(ParseError::UnexpectedToken(at + 1));
    }
    if rows::kind_at(toks, at + 2) != TokKind::EQUALS {
        return Err(ParseError::UnexpectedToken(at + 2));
    }
    let value = expr(toks, nodes, at + 3, count, Parser::MOST_LISTS)?;
    let n = value.nodes;
    end_stmt(toks, nodes, value.next, n, NodeKind::LET, at + 1, n - 1)
}

// expression `;`
fn expr_stmt(toks: &[u64], nodes: &mut [u64], at: usize, count: usize) -> Result<Parsed, ParseError>
    requires { Room (length toks.now) at count }
    ensures ahead { Ahead 1 (length toks.now) at count 0 result }
    ensures after { After toks.now nodes.old count (λ ts ns. MetStmt result nodes.new ns (expr_stmt ts at)) }
{
    let value = expr(toks, nodes, at, count, Parser::MOST_LISTS)?;
    let n = value.nodes;
    end_stmt(toks, nodes, value.next, n, NodeKind::EXPRESSION, at, n - 1)
}

fn stmt(toks: &[u64], nodes: &mut [u64], at: usize, count: usize) -> Result<Parsed, ParseError>
    requires { Room (length toks.now) at count }
    ensures ahead { Ahead 1 (length toks.now) at count 0 result }
    ensures after { After toks.now nodes.old count (λ ts ns. MetStmt result nodes.new ns (stmt_at ts at)) }
{
    match rows::kind_at(toks, at) {
        TokKind::IMPORT_KEYWORD => import_stmt(toks, nodes, at, count),
        TokKind::LET_KEYWORD => let_stmt(toks, nodes, at, count),
        _ => expr_stmt(toks, nodes, at, count),
    }
}

// The statements of a whole program. The node table starts out as zeros.
pub fn program(toks: &[u64], nodes: &mut [u64]) -> Result<Parsed, ParseError>
    requires { length toks.now ≤ token_width * most_tokens }
    ensures ahead { Ahead 0 (length toks.now) 0 0 0 result }
    ensures met_all { (ts : List Content) → Rep toks.now ts → Holds nodes.old [] → MetAll result nodes.new (program ts) }
{
    let mut at: usize = 0;
    let mut have: usize = 0;
    while rows::kind_at(toks, at) != TokKind::EOF {
        let read = stmt(toks, nodes, at, have)?;
        at = read.next;
        have = read.nodes;
    }
    Ok(Parsed {
        next: at,
        nodes: have,
        steps: 0,
    })
}

// ---- the entry

#[repr(C)]
#[derive(Clone, Copy)]
pub struct ParseAnswer {
    pub verdict: Verdict,
    pub tokens: u64,
    pub nodes: u64,
}

// The answer of a refusal: no counts.
fn refused(verdict: Verdict) -> ParseAnswer
    ensures { result ≡ record { verdict = verdict; tokens = 0; nodes = 0 } }
{
    ParseAnswer {
        verdict: verdict,
        tokens: 0,
        nodes: 0,
    }
}

// A refusal that leaves nothing in either table.
fn give_up(verdict: Verdict, toks: &mut [u64], nodes: &mut [u64]) -> ParseAnswer
    ensures { GivesUp verdict (length toks.old) (length nodes.old) result toks.new nodes.new }
{
    table::clear(toks);
    table::clear(nodes);
    refused(verdict)
}

// A refusal at the token in a row.
fn at_row(toks: &[u64], i: usize, number: u64, kind: u64) -> Verdict
    requires { token_width * i + token_width ≤ length toks.now }
    ensures { result ≡ row_verdict toks.now number kind i }
{
    let tok = rows::token_row(toks, i);
    Verdict {
        number: number,
        kind: kind,
        line: tok.line,
        column: tok.column,
        character: 0,
    }
}

// A refusal at the token numbered `at` of `count`, the last of which is `Eof`: past the end it stands there.
fn at_token(toks: &[u64], count: usize, number: u64, kind: u64, at: usize) -> Verdict
    requires { (1 ≤ count) × (token_width * count ≤ length toks.now) × (count ≤ most_tokens) }
    ensures { result ≡ verdict_at toks.now count number kind at }
{
    if at < count {
        return at_row(toks, at, number, kind);
    }
    at_row(toks, count - 1, number, kind)
}

impl ParseError {
    // The refusal that C gets, at its token of `count`. Its numbers are the C interface.
    fn verdict(self, toks: &[u64], count: usize) -> Verdict
        requires { (1 ≤ count) × (token_width * count ≤ length toks.now) × (count ≤ most_tokens) }
        ensures { result ≡ verdict_at toks.now count (number_of self) (kind_of self) (place_of self) }
    {
        let (number, kind, at) = match self {
            ParseError::UnexpectedToken(at) => (Verdict::SYNTAX, Verdict::UNEXPECTED_TOKEN, at),
            ParseError::IntOutOfRange(at) => (Verdict::SYNTAX, Verdict::INT_OUT_OF_RANGE, at),
            ParseError::TooDeep(at) => (Verdict::TOO_DEEP, 0, at),
        };
        at_token(toks, count, number, kind, at)
    }
}

// The trees of `count` tokens: how many nodes they are. The node table starts out as zeros.
fn trees(toks: &[u64], nodes: &mut [u64], count: usize) -> Result<usize, Verdict>
    requires { (1 ≤ count) × (token_width * count ≤ length toks.now) × (count ≤ most_tokens) }
    ensures { (s : List ℕ) → Lexes s toks.now count → Holds nodes.old [] → Trees s (length toks.now) (length nodes.old) result nodes.new }
{
    let room = nodes.len() / NodeRow::WORDS;
    let rows = TokenRow::WORDS * count;
    // `map_err` and `?` were tried: what it says of its closure is longer to prove than these two arms
    let parsed = match program(&toks[..rows], nodes) {
        Ok(parsed) => parsed,
        Err(e) => return Err(e.verdict(toks, count)),
    };
    if room < parsed.nodes {
        return Err(Verdict::new(Verdict::NODE_ROOM, 0, 0));
    }
    Ok(parsed.nodes)
}

// Parses `count` tokens. The node table starts out as zeros.
fn parse_tokens(toks: &mut [u64], nodes: &mut [u64], count: usize) -> ParseAnswer
    requires { (1 ≤ count) × (token_width * count ≤ length toks.old) × (count ≤ most_tokens) }
    ensures { (s : List ℕ) → Lexes s toks.old count → Holds nodes.old [] → ParseSource s (length toks.old) (length nodes.old) result toks.new nodes.new }
{
    match trees(toks, nodes, count) {
        Ok(n) => ParseAnswer {
            verdict: Verdict::new(Verdict::DONE, 0, 0),
            tokens: count as u64,
            nodes: n as u64,
        },
        Err(verdict) => give_up(verdict, toks, nodes),
    }
}

// Parses a source into a lent table of tokens and a lent table of nodes.
pub fn parse_source(source: &[u8], toks: &mut [u64], nodes: &mut [u64]) -> ParseAnswer
    ensures { ParseSource source.now (length toks.old) (length nodes.old) result toks.new nodes.new }
{
    table::clear(nodes);
    let lexed = lex::lex_source(source, toks);
    let verdict = lexed.verdict;
    if verdict.number != Verdict::DONE {
        return refused(verdict);
    }
    parse_tokens(toks, nodes, lexed.tokens as usize)
}
