// The running sum of degrees and the last mean, which travel together from batch to batch.
#![tactic(auto)]

ghost use Rattle.std.specs.Prelude.{◌≡◌};
ghost use Rattle.binary64.specs.Degree.{degree_of};
ghost use Rattle.mean.specs.inner.Running.{start, next};

#[derive(Clone, Copy)]
pub struct Mean {
    pub sum: f64,
    pub mean: f64,
}

// Before the first batch.
pub fn none() -> Mean
    ensures { result ≡ start }
{
    Mean {
        sum: 0.0,
        mean: 0.0,
    }
}

// With one batch more, at distance d: its degree is added, and the new sum is divided by n, which counts the batches in it.
pub fn with(m: Mean, n: u32, d: u32) -> Mean
    ensures { result ≡ next m n (degree_of d) }
{
    let s = m.sum + binary64::degree_of(d);
    Mean {
        sum: s,
        mean: s / n as f64,
    }
}
