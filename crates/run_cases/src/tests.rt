// Load buffering to its end, and a run refused for each reason.
// A function that holds a run of any language and store asks that its memory can be addressed.
ghost use Rattle.std.specs.Prelude.{◌^◌, ◌<◌};
ghost use prog.Memory.{size};
ghost use denote.Param.{layout};
ghost use Rattle.run.specs.contracts.play.Played.{the_row as played_row};
ghost use Rattle.run.specs.contracts.state.Run.{the_row};

use languages::action::{FenceKind, ReadMode, WriteMode};
use languages::language::Language;
use languages::register_thread::RegisterThread;
use languages::registers::RegisterLine;
use languages::strip_thread::StripThread;
use languages::strips::StripLine;
use lines::End;
use lines::span::Span;
use lines::trace::Line;
use rules::fault::StepFault;
use run::play::play;
use run::state::Run;
use std::process::Abort;
use std::test::Fail;
use stores::flat::Flat;
use stores::store::Store;

const TURN: Line = Line::Turn { thread: 0 };

const PROMISE: Line = Line::Promise {
    location: 1,
    value: 1,
    span: Span { from: 0, to: 1 },
};

const STORE: StripLine = StripLine::Store {
    location: 0,
    value: 1,
    mode: WriteMode::Relaxed,
};

const LOAD: StripLine = StripLine::Read {
    location: 0,
    value: 0,
    mode: ReadMode::Relaxed,
};

fn write(from: End, to: End) -> Line {
    Line::Write {
        span: Span { from, to },
    }
}

fn update(from: End, to: End) -> Line {
    Line::Update {
        span: Span { from, to },
    }
}

// the number of the first refusal, 0 where every line is accepted
fn refusal<L: Language, S: Store>(run: &mut Run<L, S>, lines: &[Line]) -> u8 {
    for line in lines {
        if let Err(fault) = run.step(*line) {
            return fault.number();
        }
    }
    0
}

// the same for a run that is made of one thread on two locations
fn made_refusal<L: Language + Copy, S: Store>(
    threads: [L; 4],
    store: S,
    lines: &[Line],
) -> Result<u8, StepFault>
    requires { size (layout (the_row L.row S.row)) < 2 ^ 63 }
{
    let mut run = Run::new(threads, 1, 2, store)?;
    Ok(refusal(&mut run, lines))
}

fn alone(program: &[StripLine], lines: &[Line]) -> u8 {
    match made_refusal([StripThread::new(program); 4], Flat::new(), lines) {
        Ok(number) => number,
        Err(fault) => fault.number(),
    }
}

#[test]
fn refused_before_the_step(rt: HostRuntime) {
    assert_eq!(rt; alone(&[LOAD], &[Line::Read { end: 0 }]), 7);
    assert_eq!(rt; alone(&[LOAD], &[TURN, Line::Show]), 7);
    assert_eq!(rt; alone(&[LOAD], &[TURN, write(0, 1)]), 8);
    let fence = StripLine::Fence {
        kind: FenceKind::Release,
    };
    assert_eq!(rt; alone(&[fence], &[TURN, PROMISE, Line::Next]), 9);
    assert_eq!(rt; alone(&[LOAD], &[TURN, PROMISE, Line::EndTurn]), 16);
}

#[test]
fn refused_by_the_messages(rt: HostRuntime) {
    assert_eq!(rt; alone(&[LOAD], &[TURN, Line::Read { end: 5 }]), 10);
    let first = write(0, 1);
    assert_eq!(rt;
        alone(&[STORE, LOAD], &[TURN, first, Line::Read { end: 0 }]),
        11
    );
    assert_eq!(rt;
        alone(&[STORE, LOAD], &[TURN, first, Line::Read { end: 1 }]),
        12
    );
    assert_eq!(rt; alone(&[STORE], &[TURN, write(1, 1)]), 13);
    assert_eq!(rt; alone(&[STORE, STORE], &[TURN, first, write(0, 2)]), 13);
    assert_eq!(rt; alone(&[STORE], &[TURN, PROMISE, Line::Show, first]), 14);
}

#[test]
fn refused_when_full(rt: HostRuntime) {
    let mut lines = [Line::Next; 66];
    lines[0] = TURN;
    assert_eq!(rt; alone(&[StripLine::Print { value: 1 }; 65], &lines), 15);
    assert_eq!(rt;
        alone(&[StripLine::Print { value: 1 }; 65], &lines[0..65]),
        0
    );
}

#[test]
fn updates_follow_one_another(rt: HostRuntime) {
    let add = StripLine::FetchAdd {
        location: 0,
        value: 1,
        read: ReadMode::Relaxed,
        write: WriteMode::Relaxed,
    };
    let first = update(0, 1);
    assert_eq!(rt; alone(&[add, add], &[TURN, first, update(0, 2)]), 11);
    assert_eq!(rt; alone(&[add, add], &[TURN, first, update(1, 2)]), 0);
}

fn load(location: u8) -> RegisterLine {
    RegisterLine::Load {
        register: 0,
        location,
        mode: ReadMode::Relaxed,
    }
}

fn store(location: u8, register: u8) -> RegisterLine {
    RegisterLine::Store {
        location,
        register,
        mode: WriteMode::Relaxed,
    }
}

// the promise of thread 0 is read by thread 1 before it is kept
fn load_buffering_lines() -> [Line; 16] {
    let read = Line::Read { end: 1 };
    let keep = Line::Keep { end: 1 };
    let end = Line::EndTurn;
    [
        TURN,
        PROMISE,
        Line::Show,
        Line::Read { end: 0 },
        Line::Next,
        keep,
        end,
        Line::Turn { thread: 1 },
        read,
        write(0, 1),
        end,
        TURN,
        read,
        Line::Next,
        keep,
        end,
    ]
}

// thread 1 read the promise, and thread 0 what thread 1 wrote then
fn each_saw_the_other<L: Language, S: Store>(rt: &impl Abort, run: &Run<L, S>) {
    assert!(rt; run.is_between());
    assert_eq!(rt; run.seen(0, 0), 1);
    assert_eq!(rt; run.seen(1, 1), 1);
}

fn promise_is_kept<L: Language, S: Store>(rt: &impl Abort, run: &Run<L, S>) {
    assert_eq!(rt; run.message_count(), 4);
    assert_eq!(rt; run.message(3).message.value, 1);
    assert_eq!(rt; run.owing(2), None);
}

fn buffers_loads<L: Language + Copy, S: Store>(
    rt: &impl Abort,
    threads: [L; 4],
    store: S,
) -> Result<(), Fail>
    requires { size (layout (the_row L.row S.row)) < 2 ^ 63 }
{
    let Ok(run) = Run::new(threads, 2, 2, store) else {
        return Err(Fail::new("not made"));
    };
    let mut run = run;
    assert_eq!(rt; refusal(&mut run, &load_buffering_lines()), 0);
    each_saw_the_other(rt, &run);
    promise_is_kept(rt, &run);
    Ok(())
}

#[test]
fn load_buffering(rt: HostRuntime) -> Result<(), Fail> {
    let one = RegisterLine::Constant {
        register: 1,
        value: 1,
    };
    let first = [load(0), one, store(1, 1)];
    let second = [load(1), store(0, 0)];
    let threads = [
        RegisterThread::new(&first),
        RegisterThread::new(&second),
        RegisterThread::new(&second),
        RegisterThread::new(&second),
    ];
    buffers_loads(&rt, threads, Flat::new())
}

fn owes_and_printed<L: Language, S: Store>(rt: &impl Abort, run: &Run<L, S>) -> Result<(), Fail> {
    assert_eq!(rt; run.owing(3), Some(0));
    assert_eq!(rt; run.print_count(), 1);
    let Some(print) = run.print(0) else {
        return Err(Fail::new("no print"));
    };
    assert_eq!(rt; print.value, 7);
    Ok(())
}

fn passes_over<L: Language + Copy, S: Store>(
    rt: &impl Abort,
    threads: [L; 4],
    store: S,
    lines: &[Line],
) -> Result<(), Fail>
    requires { size (layout (played_row L.row S.row)) < 2 ^ 63 }
{
    let Ok(played) = play(threads, 1, 2, store, lines) else {
        return Err(Fail::new("not made"));
    };
    assert_eq!(rt; played.accepted, 4);
    assert!(rt; !played.run.is_between());
    owes_and_printed(rt, &played.run)
}

// lines that are refused leave the run as it was
#[test]
fn refused_lines_are_passed_over(rt: HostRuntime) -> Result<(), Fail> {
    let program = [STORE, StripLine::Print { value: 7 }];
    let lines = [
        Line::Next,
        TURN,
        Line::Next,
        write(0, 3),
        Line::Show,
        Line::Next,
        PROMISE,
        Line::EndTurn,
    ];
    passes_over(&rt, [StripThread::new(&program); 4], Flat::new(), &lines)
}
