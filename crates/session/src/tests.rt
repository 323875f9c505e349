//! Small problems, loaded and solved.

ghost use Rattle.std.specs.Prelude.{◌≡◌, ◌≤◌, [], ◌∷◌, Contains, IfOk, OnOk};
ghost use Rattle.std.specs.Arc.{arc_value};
ghost use Rattle.sat_base.specs.Lit.{IsTautology, code_of};
ghost use Rattle.sat_base.specs.declared.origins.Ref.TheVariants.{Input};
ghost use Rattle.trace_core.specs.Known.{Known};
ghost use Rattle.session.specs.Solver.{IsSound, IsStep};
ghost use Rattle.session.specs.Loading.{loaded, tagged};
ghost use Rattle.session.specs.Sharing.{IsTakable};
ghost use Rattle.session.specs.Session.{no_inputs};

use crate::{Conclusion, Round, Session};
use sat_base::{Clause, Cube, Lit, Ref};
use std::alloc::{AllocError, Global};
use std::process::Abort;
use std::sync::Arc;
use std::test::Fail;
use trace_core::{Hints, Packet, Step, Steps};

mod decisions;
mod fronts;

fn lits(alloc: Global, rt: &impl Abort, numbers: &[i32]) -> Result<Vec<Lit>, AllocError> {
    let mut lits = Vec::new(alloc);
    for number in numbers {
        lits.push(Lit::of(*number).expect(rt, "a literal"))?;
    }
    Ok(lits)
}

fn clause(alloc: Global, rt: &impl Abort, numbers: &[i32]) -> Result<Clause, AllocError> {
    Clause::from_lits(alloc, &lits(alloc, rt, numbers)?)
}

fn cube(alloc: Global, rt: &impl Abort, numbers: &[i32]) -> Result<Cube, AllocError> {
    Cube::from_lits(alloc, &lits(alloc, rt, numbers)?)
}

// A session that is loaded with these inputs, before any round.
fn start(
    alloc: Global,
    rt: &impl Abort,
    clauses: &[Clause],
    cube: &Cube,
) -> Result<Session, AllocError>
    ensures { IfOk result (λ session. session ≡ record {
      solver = loaded no_inputs clauses.now;
      names = [];
    }) }
{
    assert!(rt; clauses.len() <= 16_777_216);
    let mut session = Session::new(alloc, 0);
    session.load(clauses, cube)?;
    Ok(session)
}

#[test]
fn a_part_is_refuted_and_the_session_goes_on(rt: HostRuntime) -> Result<(), Fail> {
    let alloc = rt.alloc();
    let clauses = [clause(alloc, &rt, &[1])?, clause(alloc, &rt, &[-1, 2])?];
    let against = cube(alloc, &rt, &[-2])?;
    let mut session = start(alloc, &rt, &clauses, &against)?;
    assert_eq!(rt; session.bound(), 1);
    assert_eq!(rt; session.inputs(), 2);
    match session.solve(&against, 256)? {
        Round::Refuted(part, step) => {
            assert_eq!(rt; part.lits().len(), 1);
            assert_eq!(rt; part.lits()[0].number(), -2);
            assert!(rt; step as usize <= session.steps().len());
        }
        _ => assert!(rt; false),
    }
    let free = cube(alloc, &rt, &[])?;
    match session.solve_until_answered(&free, 256)? {
        Conclusion::Model(model) => {
            assert_eq!(rt; model.values().len(), 2);
            assert!(rt; model.values()[0]);
            assert!(rt; model.values()[1]);
        }
        _ => assert!(rt; false),
    }
    Ok(())
}

fn lit(rt: &impl Abort, number: i32) -> Lit
    ensures { result ≡ code_of number }
{
    Lit::of(number).expect(rt, "a literal")
}

// A session over these inputs that took the packet of place 1 in.
fn informed(
    alloc: Global,
    rt: &impl Abort,
    clauses: &[Clause],
    cube: &Cube,
    packet: &Arc<Packet>,
) -> Result<Session, AllocError>
    requires { (one : Known) × IsTakable (loaded no_inputs clauses.now) (arc_value packet.now) one }
{
    let mut session = start(alloc, rt, clauses, cube)?;
    session.import(1, packet)?;
    assert!(rt; session.knows(1));
    assert!(rt; !session.knows(2));
    Ok(session)
}

// The inputs 1 and -1 2.
fn forcing(alloc: Global, rt: &impl Abort) -> Result<Vec<Clause>, AllocError>
    ensures { IfOk result (λ clauses. clauses.items ≡ (2 ∷ []) ∷ (3 ∷ 4 ∷ []) ∷ []) }
{
    let first = Clause::of_ascending(vec![in alloc; lit(rt, 1)]?);
    let second = Clause::of_ascending(vec![in alloc; lit(rt, -1), lit(rt, 2)]?);
    Ok(vec![in alloc; first, second]?)
}

// The packet of the clause 2, which the inputs 1 and -1 2 prove.
fn packet_of_2(alloc: Global, rt: &impl Abort) -> Result<Arc<Packet>, AllocError>
    ensures { IfOk result (λ packet. arc_value packet
        ≡ record { clause = 4 ∷ []; hints = Input 1 ∷ Input 2 ∷ []; tag = 1 } ∷ []) }
{
    let step = Step {
        clause: Clause::of_ascending(vec![in alloc; lit(rt, 2)]?),
        hints: Hints::of(vec![in alloc; Ref::Input(1), Ref::Input(2)]?),
        tag: 1,
    };
    let steps = Steps::of(vec![in alloc; step]?);
    Ok(Arc::new(alloc, Packet { steps })?)
}

#[test]
fn a_clause_is_taken_in_before_any_round(rt: HostRuntime) -> Result<(), Fail> {
    let alloc = rt.alloc();
    let clauses = forcing(alloc, &rt)?;
    let packet = packet_of_2(alloc, &rt)?;
    let against = cube(alloc, &rt, &[-2])?;
    let mut session = informed(alloc, &rt, &clauses, &against, &packet)?;
    match session.solve(&against, 256)? {
        Round::Refuted(part, _) => {
            assert_eq!(rt; part.lits(), [lit(&rt, -2)].as_slice());
        }
        _ => panic!(rt; "not refuted"),
    }
    Ok(())
}

// Three pigeons in two holes: variable 2p - 1 says that pigeon p sits in the first hole, 2p in the
// second.
fn pigeons(alloc: Global, rt: &impl Abort) -> Result<Vec<Clause>, AllocError> {
    let rows = [
        [1, 2],
        [3, 4],
        [5, 6],
        [-1, -3],
        [-1, -5],
        [-3, -5],
        [-2, -4],
        [-2, -6],
        [-4, -6],
    ];
    let mut clauses = Vec::new(alloc);
    for row in rows {
        clauses.push(clause(alloc, rt, &row)?)?;
    }
    Ok(clauses)
}

// A session over these inputs that paused after it had learnt one clause.
fn paused(alloc: Global, rt: &impl Abort, clauses: &[Clause]) -> Result<Session, AllocError>
    ensures inputs { IfOk result (λ session. session.solver.inputs ≡ tagged 1 clauses.now) }
    ensures bound { IfOk result (λ session. session.solver.bound ≡ 1) }
{
    let free = Cube::of_ascending(Vec::new(alloc));
    let mut session = start(alloc, rt, clauses, &free)?;
    match session.solve(&free, 1)? {
        Round::Paused => Ok(session),
        _ => panic!(rt; "not paused"),
    }
}

#[test]
fn the_greatest_free_variable_of_the_inputs_becomes_false(rt: HostRuntime) -> Result<(), Fail> {
    let alloc = rt.alloc();
    let clauses = [clause(alloc, &rt, &[1, 2])?];
    let given = cube(alloc, &rt, &[4])?;
    let mut session = start(alloc, &rt, &clauses, &given)?;
    match session.solve(&given, 1)? {
        Round::Model(model) => {
            assert_eq!(rt; model.values(), [true, false, false, true].as_slice());
        }
        _ => panic!(rt; "no model"),
    }
    Ok(())
}

#[test]
fn pigeons_are_refuted_after_a_pause(rt: HostRuntime) -> Result<(), Fail> {
    let alloc = rt.alloc();
    let clauses = pigeons(alloc, &rt)?;
    let mut session = paused(alloc, &rt, clauses.as_slice())?;
    assert_eq!(rt; session.learnt().len(), 1);
    let free = cube(alloc, &rt, &[])?;
    match session.solve(&free, 100)? {
        Round::Refuted(part, number) => {
            assert_eq!(rt; part.lits().len(), 0);
            assert_eq!(rt; number, session.steps().len() as u64);
        }
        _ => panic!(rt; "not refuted"),
    }
    Ok(())
}

// The number of the first learnt step.
fn first_learnt(alloc: Global, rt: &impl Abort, session: &Session) -> Result<u64, AllocError>
    ensures own { IfOk result (λ number. (one : Known)
        × IsStep session.now.solver.steps number one × (IsTautology one.clause → ⊥)) }
    ensures held { IfOk result (λ number. (one : Known)
        × IsStep session.now.solver.steps number one × Contains session.now.solver.held one) }
    ensures sound { OnOk result (IsSound session.now.solver) }
{
    let learnt = session.learnt();
    assert!(rt; learnt.len() > 0);
    let number = learnt[0];
    let steps = session.steps();
    assert!(rt; number > 0);
    assert!(rt; number as usize <= steps.len());
    let clause = steps.step(number as usize - 1).clause(alloc)?;
    if clause.is_tautology() {
        panic!(rt; "a tautology was learnt");
    }
    Ok(number)
}

// Publishes the first learnt step under a place that isn't known, and answers its packet, which a
// session over the same inputs may take in.
fn share_first(
    alloc: Global,
    rt: &impl Abort,
    session: &mut Session,
    place: u32,
) -> Result<Arc<Packet>, AllocError>
    requires place { 1 ≤ place }
    ensures takable { IfOk result (λ packet. (one : Known)
        × IsTakable session.old.solver (arc_value packet) one) }
{
    assert!(rt; !session.knows(place));
    let step = first_learnt(alloc, rt, session)?;
    let packet = Arc::new(alloc, session.packet(step)?)?;
    session.published(step, place, &packet)?;
    Ok(packet)
}

// Publishes at place 1 what a session over these inputs has learnt when it pauses after one clause.
fn published(alloc: Global, rt: &impl Abort, clauses: &[Clause]) -> Result<Arc<Packet>, AllocError>
    ensures { IfOk result (λ packet. (one : Known)
        × IsTakable (loaded no_inputs clauses.now) (arc_value packet) one) }
{
    let mut session = paused(alloc, rt, clauses)?;
    assert!(rt; session.learnt().len() == 1);
    let packet = share_first(alloc, rt, &mut session, 1)?;
    assert!(rt; session.knows(1));
    assert!(rt; !session.knows(2));
    Ok(packet)
}

#[test]
fn a_published_clause_spares_another_session_its_search(rt: HostRuntime) -> Result<(), Fail> {
    let alloc = rt.alloc();
    let clauses = pigeons(alloc, &rt)?;
    let clauses = clauses.as_slice();
    let packet = published(alloc, &rt, clauses)?;
    let steps = packet.steps.items();
    assert_eq!(rt; steps.len(), 1);
    assert_eq!(rt; steps[0].clause.lits(), [lit(&rt, -5)].as_slice());
    assert_eq!(rt; steps[0].tag, 1);
    let free = cube(alloc, &rt, &[])?;
    let mut session = informed(alloc, &rt, clauses, &free, &packet)?;
    match session.solve(&free, 1)? {
        Round::Refuted(part, _) => assert_eq!(rt; part.lits().len(), 0),
        _ => panic!(rt; "not refuted"),
    }
    assert_eq!(rt; session.learnt().len(), 0);
    Ok(())
}

// The clause by which the variable implies the next one.
fn link(alloc: Global, rt: &impl Abort, var: u32) -> Result<Clause, AllocError>
    requires low { 1 ≤ var }
    requires high { var ≤ 3000 }
{
    let number = var as i32;
    clause(alloc, rt, &[-number, number + 1])
}

// Each of the variables 1 to `2 * pairs` implies the next one. The links of odd variables come
// first, then those of the even ones from the last on, so that a look at all clauses finds few that
// force something.
fn chain(alloc: Global, rt: &impl Abort, pairs: u32) -> Result<Vec<Clause>, AllocError>
    requires { pairs ≤ 1500 }
{
    let mut clauses = Vec::new(alloc);
    for pair in 0..pairs {
        clauses.push(link(alloc, rt, 2 * pair + 1)?)?;
    }
    for pair in 0..pairs {
        clauses.push(link(alloc, rt, 2 * (pairs - pair))?)?;
    }
    Ok(clauses)
}

#[derive(Clone, Copy)]
struct ChainRow {
    // Half the number of implications.
    pairs: u32,
    // The variables behind them that no clause has.
    free: u32,
    // How many variables are true in the model.
    trues: usize,
}

const CHAIN_ROWS: [ChainRow; 3] = [
    ChainRow {
        pairs: 0,
        free: 2000,
        trues: 2,
    },
    ChainRow {
        pairs: 1500,
        free: 0,
        trues: 3002,
    },
    ChainRow {
        pairs: 1500,
        free: 2000,
        trues: 3002,
    },
];

// The first variable and the last one are assumed.
fn solve_chain(rt: &impl Abort, alloc: Global, row: ChainRow) -> Result<(), Fail> {
    assert!(rt; row.pairs <= 1500);
    assert!(rt; row.free <= 2000);
    let last = 2 * row.pairs + row.free + 2;
    let clauses = chain(alloc, rt, row.pairs)?;
    let given = cube(alloc, rt, &[1, last as i32])?;
    let mut session = start(alloc, rt, clauses.as_slice(), &given)?;
    match session.solve(&given, 1)? {
        Round::Model(model) => {
            let values = model.values();
            assert_eq!(rt; values.len(), last as usize);
            assert_eq!(rt; values.iter().filter(|value| **value).count(), row.trues);
        }
        _ => panic!(rt; "no model"),
    }
    Ok(())
}

#[test]
fn a_long_chain_and_many_free_variables_end_soon(rt: HostRuntime) -> Result<(), Fail> {
    for row in CHAIN_ROWS {
        solve_chain(&rt, rt.alloc(), row)?;
    }
    Ok(())
}

// The cube of the positive literals of so many variables.
fn assumed(alloc: Global, rt: &impl Abort, count: u32) -> Result<Cube, AllocError>
    requires { count ≤ 8388607 }
{
    let mut lits = Vec::new(alloc);
    for var in 1..count + 1 {
        lits.push(Lit::of(var as i32).expect(rt, "a literal"))?;
    }
    Cube::from_lits(alloc, &lits)
}

// To look through the cube from its first literal on at each decision would take minutes.
#[test]
fn a_cube_of_many_literals_is_walked_once(rt: HostRuntime) -> Result<(), Fail> {
    let alloc = rt.alloc();
    let given = assumed(alloc, &rt, 500_000)?;
    let mut session = start(alloc, &rt, &[], &given)?;
    match session.solve(&given, 1)? {
        Round::Model(model) => {
            assert!(rt; model.values().len() == 500_000);
            assert!(rt; model.values().iter().all(|value| *value));
        }
        _ => panic!(rt; "no model"),
    }
    Ok(())
}
