// The commands on a series. Their memory is the program's own, on its stack: 3 MiB of work memory and two tables of half a MiB.
use host_io::EprintBytes;
use msar_args::{Call, Command, Options};
use msar_commands::{Series, verdict};
use msar_files::readings::Readings;
use msar_files::series::Reading;
use msar_fit::Ways;
use msar_out::table::{Kept, Style};
use text_model::Model;

fn ways_of(o: Options) -> Ways {
    Ways {
        max_iter: o.max_iter.unwrap_or(100),
        tol: o.tol.unwrap_or(1e-6),
        starts: o.starts.unwrap_or(1),
        as_reached: o.as_reached,
    }
}

fn style_of<'a>(o: Options, reading: Reading, readings: &'a Readings) -> Style<'a> {
    let kept = Kept {
        texts: readings.cells.as_flattened(),
        headed: reading.headed,
    };
    Style {
        digits: o.digits,
        kept: o.keep.map(|_| kept),
    }
}

fn series_of(reading: Reading, readings: &Readings) -> Series<'_> {
    Series {
        values: readings.values.as_slice(),
        lines: readings.lines.as_slice(),
        readings: reading.count,
    }
}

// The commands that write a row for each reading, or of one.
fn by_reading(
    rt: &(impl Print + EprintBytes),
    call: Call,
    model: &Model,
    series: Series<'_>,
    style: Style<'_>,
    work: &mut [f64],
    filtered: &mut [f64],
    smoothed: &mut [f64],
) {
    let s = model.spec;
    let q = model.params;
    let o = call.options;
    let rule = o.rule.unwrap_or(2);
    match call.command {
        Command::Filter => msar_commands::filter(rt, s, series, q, rule, style, work, filtered),
        Command::Smooth => {
            msar_commands::smooth(rt, s, series, q, rule, style, work, filtered, smoothed)
        }
        Command::Verdict => verdict::verdict(
            rt, s, series, q, rule, o.regime, style, work, filtered, smoothed,
        ),
        _ => {}
    }
}

// One frame holds the memory of every command.
pub fn on_series(
    rt: &(impl Print + EprintBytes),
    call: Call,
    model: &Model,
    own: &[u8],
    reading: Reading,
    readings: &Readings,
) {
    let mut work = [0.0; 393216];
    let mut filtered = [0.0; 65536];
    let mut smoothed = [0.0; 65536];
    let s = model.spec;
    let q = model.params;
    let o = call.options;
    let rule = o.rule.unwrap_or(2);
    let series = series_of(reading, readings);
    let style = style_of(o, reading, readings);
    match call.command {
        Command::Loglike => {
            msar_commands::loglike(rt, s, series, q, rule, style.digits, &mut work)
        }
        Command::Fit => msar_fit::fit(rt, s, series, q, own, ways_of(o), &mut work, &mut smoothed),
        Command::Start => {
            if let (Some(regimes), Some(order)) = (o.regimes, o.order) {
                msar_fit::start(rt, series, regimes, order, o.switching_variance);
            }
        }
        _ => by_reading(
            rt,
            call,
            model,
            series,
            style,
            &mut work,
            &mut filtered,
            &mut smoothed,
        ),
    }
}
