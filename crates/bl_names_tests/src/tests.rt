//! A source text, and what its names stand for.

ghost use Rattle.std.specs.Prelude.{◌<◌, length};

use bl_lex::lex;
use bl_names::resolve_behind;
use bl_names_scopes::heading::Heading;
use bl_names_scopes::kind::Kind;
use bl_names_tree::Named;
use bl_names_tree::expr::{NamedExpr, NamedExprKind, NamedTarget, Root};
use bl_names_tree::stmt::{NamedStmt, NamedStmtKind};
use bl_parse::parse;
use bl_parse_tree::name::Name;
use bl_tree::{List, NoMemory, Place, Refusal, Text};
use std::alloc::Global;
use std::process::Abort;

const TEXT: &str = "
const size = 2
struct Pair var left: int32 var right: [size] int32 end
function Twice(n: int32) returns int32 return n + n end
@[EntryPoint] activity Main(size: int32)(out: int32)
  var x = size
  repeat
    const size = 3
    let y = size + x
    out = Twice(y)
    await true
  until size == x end
  out = size
end
const last = size
";

/// Uses a constant and a function that are declared before it.
const BEHIND: &str = "
@[EntryPoint] activity Main()(out: int32)
  const own = size
  repeat
    out = Twice(own)
    await true
  until out == size end
end
";

fn named(alloc: Global, headings: &[Heading], text: &str) -> Result<Named, Refusal>
    requires { length text.now < 4294967296 }
{
    let tokens = lex(alloc, text.as_bytes())?;
    let raw = parse(alloc, text.as_bytes(), &tokens)?;
    resolve_behind(alloc, headings, &raw)
}

/// A variable by its position, and a constant by a letter before it.
fn root(target: &NamedTarget) -> (char, u32) {
    match target.root {
        Root::Variable(k) => ('v', k),
        Root::Constant(k) => ('c', k),
    }
}

/// What stands for the names in an expression, in order.
#[cycle(seen)]
fn expr(e: &NamedExpr, seen: &mut List<(char, u32)>) -> Result<(), NoMemory> {
    match &e.what {
        NamedExprKind::Read(target) => Ok(seen.push(root(target))?),
        NamedExprKind::Two(_, a, b) => {
            expr(a, seen)?;
            expr(b, seen)
        }
        NamedExprKind::Call(_, f, inputs) => {
            seen.push(('u', *f))?;
            for input in inputs.iter() {
                expr(input, seen)?;
            }
            Ok(())
        }
        _ => Ok(()),
    }
}

/// What stands for the names in statements, in order.
#[cycle(seen_in)]
fn body(all: &[NamedStmt], seen: &mut List<(char, u32)>) -> Result<(), NoMemory> {
    for s in all {
        statement(s, seen)?;
    }
    Ok(())
}

#[cycle(seen_in)]
fn statement(s: &NamedStmt, seen: &mut List<(char, u32)>) -> Result<(), NoMemory> {
    match &s.what {
        NamedStmtKind::Declare(k, value) => {
            seen.push(('d', *k))?;
            match value {
                Some(e) => expr(e, seen),
                None => Ok(()),
            }
        }
        NamedStmtKind::Const(k) => Ok(seen.push(('k', *k))?),
        NamedStmtKind::Assign(target, e) => {
            seen.push(root(target))?;
            expr(e, seen)
        }
        NamedStmtKind::Until(inner, e) => {
            body(inner, seen)?;
            expr(e, seen)
        }
        _ => Ok(()),
    }
}

fn in_units(alloc: Global, named: &Named) -> Result<List<(char, u32)>, NoMemory> {
    let mut seen = List::new(alloc);
    for unit in named.units.iter() {
        body(&unit.body, &mut seen)?;
    }
    Ok(seen)
}

fn in_constants(alloc: Global, named: &Named) -> Result<List<(char, u32)>, NoMemory> {
    let mut seen = List::new(alloc);
    for constant in named.constants.iter() {
        expr(&constant.value, &mut seen)?;
    }
    Ok(seen)
}

const IN_UNITS: [(char, u32); 13] = [
    ('d', 2),
    ('v', 0),
    ('k', 1),
    ('d', 3),
    ('c', 1),
    ('v', 2),
    ('v', 1),
    ('u', 0),
    ('v', 3),
    ('v', 0),
    ('v', 2),
    ('v', 1),
    ('v', 0),
];

#[test]
fn an_inner_name_hides_an_outer_one(rt: HostRuntime) -> Result<(), NoMemory> {
    let alloc = rt.alloc();
    match named(alloc, &[], TEXT) {
        Ok(named) => {
            assert_eq!(&rt; in_units(alloc, &named)?.as_slice(), IN_UNITS.as_slice());
            assert_eq!(&rt;
                in_constants(alloc, &named)?.as_slice(),
                [('c', 0)].as_slice()
            );
        }
        Err(_) => assert!(&rt; false),
    }
    Ok(())
}

fn heading(alloc: Global, name: &str, kind: Kind) -> Result<Heading, NoMemory> {
    Ok(Heading {
        name: Name {
            text: Text::copy_of(alloc, name)?,
            place: Place { start: 0, end: 0 },
        },
        kind,
    })
}

/// An activity, a constant and a function.
fn headings(alloc: Global) -> Result<List<Heading>, NoMemory> {
    let mut made = List::new(alloc);
    made.push(heading(alloc, "Other", Kind::Activity)?)?;
    made.push(heading(alloc, "size", Kind::Constant)?)?;
    made.push(heading(alloc, "Twice", Kind::Function)?)?;
    Ok(made)
}

const IN_UNIT_BEHIND: [(char, u32); 6] = [
    ('k', 1),
    ('v', 0),
    ('u', 1),
    ('c', 1),
    ('v', 0),
    ('c', 0),
];

#[test]
fn a_use_may_bind_to_what_is_declared_before(rt: HostRuntime) -> Result<(), NoMemory> {
    let alloc = rt.alloc();
    match named(alloc, &headings(alloc)?, BEHIND) {
        Ok(named) => {
            assert_eq!(&rt;
                in_units(alloc, &named)?.as_slice(),
                IN_UNIT_BEHIND.as_slice()
            );
            assert_eq!(&rt; named.constants.len(), 2);
            assert_eq!(&rt; named.units.len(), 3);
        }
        Err(_) => assert!(&rt; false),
    }
    Ok(())
}
