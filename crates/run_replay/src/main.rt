// Answers recorded cases of the model's calls, so that the gate compares them with the answers of the Rust that they were
// ported from (oracle/model). Each case goes through the plain calls and through the record over them, each with memory of its
// own, and every bit of the two outcomes is compared.
// Standard input: a line is 16 hexadecimal digits. A case has 16 whole numbers: the call (1 loglike, 2 filter, 3 smooth, 4 fit), k,
// the order, two flags, the lengths lent of work memory, filtered and smoothed table, the count of readings, the six counts of
// the parameters, and the rule, which a fit does not take. Then come the readings, and of transition, means, AR coefficients and
// variances as many numbers as their count says, but no more than their array holds. A fit ends with two lines more: the passes
// allowed, and the tolerance.
// Standard output: for each case a line with the refusal's number (0: answered), place and value, and the log-likelihood; a line
// with how many places of work memory, from the first on, are +0, and how many places past these were written; then for each
// table lent the numbers from its first place on that were written, and a line with how many places past these were written.
// A fit has behind the first line one with iterations and converged (0 or 1), and at the end the fitted numbers, of transition,
// means, AR coefficients and variances as many as their counts say, and a line with how many other places are not +0.
// Every NaN is 7ff8000000000000. A case that the record answers otherwise has `the record differs` before it. Or `bad case N`,
// which ends the run.
#![tactic(auto)]

ghost use Rattle.std.specs.Prelude.{◌≤◌, length};

use fit::Fitted;
use params::MsarParams;
use refusal::Refusal;
use run_hex::Line;
use spec::MsarSpec;
use std::io::Input;

// What memory holds before it is lent: no probability, and no other number that a call of the file writes.
const MARK: f64 = 987654321.125;

// More than any case of the file lends.
const PLACES: usize = 25600;

type Memory = [f64; PLACES];

// The call that a case makes, with what it takes beside spec, parameters and memory: its rule, or the passes allowed and the
// tolerance.
#[derive(Clone, Copy)]
enum Call {
    Loglike(usize),
    Filter(usize),
    Smooth(usize),
    Fit(usize, f64),
}

// How many places of each memory a case lends: no more than there are.
#[derive(Clone, Copy)]
struct Lent {
    work: usize,
    filtered: usize,
    smoothed: usize,
    ghost work_fits: { work ≤ 25600 },
    ghost filtered_fits: { filtered ≤ 25600 },
    ghost smoothed_fits: { smoothed ≤ 25600 },
}

// A case, its readings aside.
#[derive(Clone, Copy)]
struct Given {
    call: Call,
    spec: MsarSpec,
    params: MsarParams,
    lent: Lent,
}

// What a call answers, and what it leaves in memory.
#[derive(Clone, Copy)]
struct Outcome {
    answer: Result<Fitted, Refusal>,
    work: Memory,
    filtered: Memory,
    smoothed: Memory,
}

// ---- the calls

// The answer of another call than fit, beside the parameters that it was given.
fn unfitted(loglik: Result<f64, Refusal>, params: MsarParams) -> Result<Fitted, Refusal> {
    Ok(Fitted {
        params,
        loglik: loglik?,
        iterations: 0,
        converged: false,
    })
}

// The same four calls of two crates: that they agree is what this program compares, so each is written out.
fn plain(
    c: &Given,
    series: &[f64],
    work: &mut [f64],
    filtered: &mut [f64],
    smoothed: &mut [f64],
) -> Result<Fitted, Refusal> {
    let (s, q) = (c.spec, c.params);
    match c.call {
        Call::Loglike(rule) => unfitted(calls::loglike(s, series, q, rule, work), q),
        Call::Filter(rule) => unfitted(calls::filter(s, series, q, rule, work, filtered), q),
        Call::Smooth(rule) => unfitted(
            calls::smooth(s, series, q, rule, work, filtered, smoothed),
            q,
        ),
        Call::Fit(passes, tol) => fit::fit(s, series, q, passes, tol, work, smoothed),
    }
}

fn held(
    c: &Given,
    series: &[f64],
    work: &mut [f64],
    filtered: &mut [f64],
    smoothed: &mut [f64],
) -> Result<Fitted, Refusal> {
    let (s, q) = (c.spec, c.params);
    match c.call {
        Call::Loglike(rule) => unfitted(record::loglike_of(s, series, q, rule, work), q),
        Call::Filter(rule) => unfitted(record::filter_of(s, series, q, rule, work, filtered), q),
        Call::Smooth(rule) => unfitted(
            record::smooth_of(s, series, q, rule, work, filtered, smoothed),
            q,
        ),
        Call::Fit(passes, tol) => record::fit_of(s, series, q, passes, tol, work, smoothed),
    }
}

// The case by these calls, in memory of its own, of which as much is lent as the case says.
fn ran<F>(calls: F, c: &Given, series: &[f64]) -> Outcome
where
    F: Fn(&Given, &[f64], &mut [f64], &mut [f64], &mut [f64]) -> Result<Fitted, Refusal>,
    requires { F.IsAlwaysCallable calls }
{
    let mut work = [MARK; PLACES];
    let mut filtered = [MARK; PLACES];
    let mut smoothed = [MARK; PLACES];
    let answer = calls(
        c,
        series,
        &mut work[..c.lent.work],
        &mut filtered[..c.lent.filtered],
        &mut smoothed[..c.lent.smoothed],
    );
    Outcome {
        answer,
        work,
        filtered,
        smoothed,
    }
}

// ---- comparing, by patterns

fn same_number(a: f64, b: f64) -> bool {
    number::pattern(a) == number::pattern(b)
}

fn same_numbers(a: &[f64], b: &[f64]) -> bool {
    a.len() == b.len() && a.iter().zip(b).all(|(x, y)| same_number(*x, *y))
}

fn counts(q: &MsarParams) -> [usize; 6] {
    [
        q.means_count,
        q.transition_count,
        q.ar_blocks,
        q.order,
        q.ar_count,
        q.variances_count,
    ]
}

fn same_params(a: &MsarParams, b: &MsarParams) -> bool {
    same_numbers(&a.transition, &b.transition)
        && same_numbers(&a.means, &b.means)
        && same_numbers(&a.ar, &b.ar)
        && same_numbers(&a.variances, &b.variances)
        && counts(a) == counts(b)
}

fn same_fitted(a: &Fitted, b: &Fitted) -> bool {
    same_params(&a.params, &b.params)
        && same_number(a.loglik, b.loglik)
        && a.iterations == b.iterations
        && a.converged == b.converged
}

// A refusal as it is compared and written: its number, its place and its value's pattern.
fn words(r: Refusal) -> (usize, usize, u64) {
    (r.number(), r.place(), number::pattern(r.value()))
}

// By patterns: a derived equality would hold the zeros of both signs equal, and no NaN equal to itself.
fn same_answer(a: &Result<Fitted, Refusal>, b: &Result<Fitted, Refusal>) -> bool {
    match (a, b) {
        (Ok(x), Ok(y)) => same_fitted(x, y),
        (Err(r), Err(t)) => words(*r) == words(*t),
        _ => false,
    }
}

fn same_outcome(a: &Outcome, b: &Outcome) -> bool {
    same_answer(&a.answer, &b.answer)
        && same_numbers(&a.work, &b.work)
        && same_numbers(&a.filtered, &b.filtered)
        && same_numbers(&a.smoothed, &b.smoothed)
}

// What making the record finds is what `bind` finds, 1 to 6.
fn same_bound(s: MsarSpec, series: &[f64]) -> bool {
    let bound = binding::bind(s, series).map(|_| ()).map_err(words);
    bound == record::check_of(s, series).map_err(words)
}

// ---- writing

fn decimal(rt: &impl Print, n: usize, end: u8) {
    host_io::print_decimal(rt, n as u64);
    host_io::write_all(rt, &[end]);
}

// The answer as C is told a fit's: each place is written, beside a refusal too.
fn spelled(answer: &Result<Fitted, Refusal>) -> ([usize; 4], [f64; 2]) {
    let mut whole = [9; 4];
    let mut real = [9.0; 2];
    c_layout::told::spell_fit(answer, &mut whole, &mut real);
    (whole, real)
}

fn show_answer(rt: &impl Print, answer: &Result<Fitted, Refusal>) {
    let (whole, real) = spelled(answer);
    decimal(rt, whole[0], b' ');
    decimal(rt, whole[1], b' ');
    run_hex::write(rt, number::pattern(real[0]), b' ');
    run_hex::write(rt, number::pattern(real[1]), b'\n');
}

// How many numbers are not `blank`.
fn others(numbers: &[f64], blank: f64) -> usize
    ensures { result ≤ length numbers.now }
{
    numbers.iter().filter(|x| !same_number(**x, blank)).count()
}

fn show_numbers(rt: &impl Print, numbers: &[f64]) {
    for x in numbers {
        run_hex::write(rt, number::pattern(*x), b'\n');
    }
}

fn show_work(rt: &impl Print, work: &[f64]) {
    let zeros = work
        .iter()
        .position(|x| number::pattern(*x) != 0)
        .unwrap_or(work.len());
    decimal(rt, zeros, b' ');
    decimal(rt, others(&work[zeros..], MARK), b'\n');
}

fn show_table(rt: &impl Print, table: &[f64]) {
    let written = table.iter().position(|x| *x == MARK).unwrap_or(table.len());
    show_numbers(rt, &table[..written]);
    decimal(rt, others(&table[written..], MARK), b'\n');
}

// Writes the first numbers of a part, as many as its count says, and counts those of the others that are not +0.
fn show_part(rt: &impl Print, part: &[f64], count: usize) -> usize
    ensures { result ≤ length part.now }
{
    let n = count.min(part.len());
    show_numbers(rt, &part[..n]);
    others(&part[n..], 0.0)
}

fn show_params(rt: &impl Print, q: &MsarParams) {
    let transition = show_part(rt, &q.transition, q.transition_count);
    let means = show_part(rt, &q.means, q.means_count);
    let ar = show_part(rt, &q.ar, q.ar_count);
    let variances = show_part(rt, &q.variances, q.variances_count);
    decimal(rt, transition + means + ar + variances, b'\n');
}

// What a fit has behind the first line. A refused one has no parameters, so no place of theirs that is not +0.
fn show_fit(rt: &impl Print, o: &Outcome) {
    let (whole, _) = spelled(&o.answer);
    decimal(rt, whole[2], b' ');
    decimal(rt, whole[3], b'\n');
    show_work(rt, &o.work);
    show_table(rt, &o.smoothed);
    match &o.answer {
        Ok(a) => show_params(rt, &a.params),
        Err(_) => decimal(rt, 0, b'\n'),
    }
}

// Writes the lines that the call's case has.
fn show(rt: &impl Print, call: Call, o: &Outcome) {
    show_answer(rt, &o.answer);
    match call {
        Call::Loglike(_) => show_work(rt, &o.work),
        Call::Filter(_) => {
            show_work(rt, &o.work);
            show_table(rt, &o.filtered);
        }
        Call::Smooth(_) => {
            show_work(rt, &o.work);
            show_table(rt, &o.filtered);
            show_table(rt, &o.smoothed);
        }
        Call::Fit(_, _) => show_fit(rt, o),
    }
}

// ---- reading

// The next line as a whole number.
fn whole(rt: &impl Input) -> Option<usize> {
    let Line::Pattern(n) = run_hex::read(rt) else {
        return None;
    };
    Some(n as usize)
}

// The counts of the parameters.
fn read_counts(rt: &impl Input) -> Option<[usize; 6]> {
    let mut counts = [0; 6];
    for count in &mut counts {
        *count = whole(rt)?;
    }
    Some(counts)
}

fn read_spec(rt: &impl Input) -> Option<MsarSpec> {
    Some(MsarSpec {
        k_regimes: whole(rt)?,
        order: whole(rt)?,
        switching_ar: whole(rt)? != 0,
        switching_variance: whole(rt)? != 0,
    })
}

// As many numbers of the input as the count says, but no more than the part holds.
fn read_part<const N: usize>(rt: &impl Input, count: usize) -> Option<[f64; N]> {
    run_hex::filled(rt, count.min(N))
}

// How much memory is lent; None where there is not so much.
fn read_lent(rt: &impl Input) -> Option<Lent> {
    let work = whole(rt)?;
    let filtered = whole(rt)?;
    let smoothed = whole(rt)?;
    if work > PLACES || filtered > PLACES || smoothed > PLACES {
        return None;
    }
    Some(Lent {
        work,
        filtered,
        smoothed,
    })
}

// The parameters with these counts, whose numbers come next.
fn read_params(rt: &impl Input, counts: [usize; 6]) -> Option<MsarParams> {
    let [
        means_count,
        transition_count,
        ar_blocks,
        order,
        ar_count,
        variances_count,
    ] = counts;
    Some(MsarParams {
        transition: read_part(rt, transition_count)?,
        means: read_part(rt, means_count)?,
        ar: read_part(rt, ar_count)?,
        variances: read_part(rt, variances_count)?,
        means_count,
        transition_count,
        ar_blocks,
        order,
        ar_count,
        variances_count,
    })
}

// The call with this number. What a fit takes stands behind its parameters, and comes next.
fn read_call(rt: &impl Input, number: u64, rule: usize) -> Option<Call> {
    match number {
        1 => Some(Call::Loglike(rule)),
        2 => Some(Call::Filter(rule)),
        3 => Some(Call::Smooth(rule)),
        4 => {
            let passes = whole(rt)?;
            let tol = whole(rt)?;
            Some(Call::Fit(passes, number::of_pattern(tol as u64)))
        }
        _ => None,
    }
}

// ---- the cases

// Answers a case both ways.
fn answer(rt: &impl Print, c: &Given, series: &[f64]) {
    let a = ran(plain, c, series);
    let b = ran(held, c, series);
    if !(same_outcome(&a, &b) && same_bound(c.spec, series)) {
        host_io::write_all(rt, b"the record differs\n");
    }
    show(rt, c.call, &a);
}

// Answers the case of this call; None where it is none that the program takes. A series may have one reading more than a call
// takes.
fn case(rt: &(impl Print + Input), number: u64) -> Option<()> {
    // another number is answered at once, though more may never come
    if !matches!(number, 1..=4) {
        return None;
    }
    let spec = read_spec(rt)?;
    let lent = read_lent(rt)?;
    let readings = whole(rt)?;
    let counts = read_counts(rt)?;
    let rule = whole(rt)?;
    let series: [f64; 4097] = run_hex::filled(rt, readings)?;
    let params = read_params(rt, counts)?;
    let call = read_call(rt, number, rule)?;
    let c = Given {
        call,
        spec,
        params,
        lent,
    };
    answer(rt, &c, &series[..readings]);
    Some(())
}

// Beside run_hex::bad_line: other words.
fn bad(rt: &impl Print, cases: u64) {
    host_io::write_all(rt, b"bad case ");
    host_io::print_decimal(rt, cases);
    host_io::write_all(rt, b"\n");
}

// A proved loop has to end, and nothing says that the input does: it stops after 2 ^ 32 cases, which no run reaches.
fn main(rt: HostRuntime) {
    for cases in 0..0x1_0000_0000u64 {
        let answered = match run_hex::read(&rt) {
            Line::End => return,
            Line::Bad => None,
            Line::Pattern(number) => case(&rt, number),
        };
        if answered.is_none() {
            bad(&rt, cases);
            return;
        }
    }
}
