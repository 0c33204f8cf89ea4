// What `msar --help` and `msar --version` write.

pub fn help(rt: &impl Print) {
    host_io::write_all(
        rt,
        b"msar: which regime of a Markov-switching autoregression holds, at each reading of a series and at its end

  msar start SERIES --regimes K --order P [--switching-variance]   a MODEL worked out from the readings, for fit to begin with
  msar fit MODEL SERIES [--max-iter N] [--tol X] [--starts N] [--as-reached]
                             the MODEL that EM reaches from this one: at most N passes (100), until one gains X (1e-6) or less;
                             the best of N starts (1); regimes keep the MODEL's order of means, unless as reached
  msar check MODEL           checks a model; its shape, and the longest series that every command takes
  msar durations MODEL       how many readings each regime lasts, on average
  msar loglike MODEL SERIES  the log-likelihood of the series
  msar filter MODEL SERIES   the probability of each regime at each reading, given the readings up to it
  msar smooth MODEL SERIES   the same, given all readings
  msar verdict MODEL SERIES [--regime R]   which regime holds at the end, since which reading, and whether that is settled
  msar --help | --version

  --column NAME | '#N'       SERIES is a CSV file: its column headed NAME, or the N-th, counted from 1
  --heading | --no-heading   its first line is a heading, or is none (else: it is one where no cell is a number)
  --separator , | ';' | tab  what parts its cells (,)
  --keep NAME | '#N'         carries another column's text into the table of filter, smooth or verdict
  --digits N                 tables with N significant digits, 1 to 17, for people to read
  --rule 1 | 2               loglike, filter, smooth, verdict at order 0: 2 (default) looks at the regime before, 1 does not
  -                          for MODEL or SERIES: standard input

The model:  y[t] = mean[s] + ar[1] (y[t-1] - mean[s1]) + .. + ar[P] (y[t-P] - mean[sP]) + noise of regime s's variance,
where s is the regime at reading t and s1 .. sP those before it. A MODEL file, line by line; # begins a comment:
  regimes K                  2 to 16, and
  order P                    with K to the power P + 1, the count of windows, at most 256; both come first
  transition X .. X          K lines of K numbers: number j of line i is the probability of regime i after regime j
  means X .. X               K numbers
  ar X .. X                  P numbers, on one line for all regimes or on K; at order 0 it may be left out
  variances X .. X           one number for all regimes, or K
A SERIES without --column: one number on each line; # begins a comment. A number: 3, -0.25, 2e-3, or 0x and its 16 digits.
At most 4096 readings with up to 48 windows, and P + 196608 / windows with more; loglike and filter take 4096 with up to 95
windows, and P + 392960 / windows with more. Readings and regimes count from 0, lines and columns of files from 1.

docs/GUIDE.md goes from a file of readings to a verdict; docs/MODEL.md has all of this.

The last line on standard error begins with `msar: refused` or `msar: error` where there is no answer; the command bin/msar
then ends with status 2 or 1. This program without it gives no status: it always ends with 0.
",
    );
}

pub fn version(rt: &impl Print) {
    host_io::write_all(rt, b"msar 0.4.0\n");
}
