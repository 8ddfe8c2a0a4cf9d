// The sooner of two times.
ghost use Rattle.std.specs.Prelude.{◌≡◌};
ghost use Rattle.records.specs.Times.{sooner};

pub fn sooner_of(t: u64, o: Option<u64>) -> Option<u64>
    ensures { result ≡ sooner t o }
{
    Some(match o {
        Some(u) => t.min(u),
        None => t,
    })
}
