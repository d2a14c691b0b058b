// A run of pairs on a lent register file and mark, with a budget of steps.
#![tactic(auto)]

ghost use Rattle.std.specs.Prelude.{◌≡◌, ◌*◌, length, drop};
ghost use Rattle.laws.specs.Answer.{accepted};
ghost use Rattle.machine.specs.State.{state};
ghost use Rattle.runs.specs.Answers.{ran_of};
ghost use Rattle.runs.specs.Run.{run_pairs, run_of, machine_steps};

use effects::State;
use insn::Refusal;
use machine::step;

// What a run answers: how it ended, and the pairs executed.
#[derive(Clone, Copy)]
pub struct Ran {
    pub outcome: Result<(), Refusal>,
    pub executed: u64,
}

// The numbers of a lent file. Here and in `store` no slice is copied whole, for which an archive for C would need memmove.
fn load(lent: &[u64]) -> [u64; 32]
    requires { length lent.now ≡ 32 }
    ensures { result ≡ lent.now }
{
    let mut file = [0; 32];
    for k in 0..32 {
        file[k] = lent[k];
    }
    file
}

// A file put back where it was lent.
fn store(lent: &mut [u64], file: &[u64; 32])
    requires { length lent.old ≡ 32 }
    ensures { lent.new ≡ file.now }
{
    for k in 0..32 {
        lent[k] = file[k];
    }
}

// The pairs of the code in turn, while the budget lasts: how they ended, how many were executed, and the state that they
// leave.
fn go(code: &[u16], start: State, budget: u64) -> (Result<(), Refusal>, u64, State)
    ensures { ran_of (record { outcome = result.0; executed = result.1 }) (state result.2.file result.2.mark) ≡ run_pairs code.now budget (state start.file start.mark) }
{
    let mut state = start;
    let mut left = budget;
    for pair in code.chunks_exact(2) {
        if left == 0 {
            return (Err(Refusal::BudgetSpent), budget - left, state);
        }
        match step(state, pair[0], pair[1]) {
            Ok(next) => state = next,
            Err(f) => return (Err(f), budget - left, state),
        }
        left -= 1;
    }
    (Ok(()), budget - left, state)
}

// The run from a start counted in pairs, while the budget of steps lasts. It leaves file and mark at the last pair that
// was executed.
pub fn run(code: &[u16], start: u64, file: &mut [u64], budget: u64, mark: &mut bool) -> Ran
    ensures answer { ran_of result (state file.new mark.new) ≡ run_of code.now start (state file.old mark.old) budget }
    ensures counted { machine_steps result.executed (drop (2 * start) code.now) (state file.old mark.old) ≡ accepted (state file.new mark.new) }
{
    if code.len() % 2 != 0 || file.len() != 32 || ((code.len() / 2) as u64) < start {
        return Ran {
            outcome: Err(Refusal::WrongExtent),
            executed: 0,
        };
    }
    let before = State {
        file: load(file),
        mark: *mark,
    };
    let (outcome, executed, after) = go(&code[2 * start as usize..], before, budget);
    store(file, &after.file);
    *mark = after.mark;
    Ran { outcome, executed }
}
