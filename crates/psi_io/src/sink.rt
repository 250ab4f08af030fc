//! The contract of a sink, and the writing of a whole piece.

ghost use Rattle.std.specs.Prelude.{◌≡◌, ℕ, ◌-◌, ◌≤◌, ◌++◌, List, Option, length, take, IsOk, IfOk, OnOk, OnErr};
ghost use Rattle.psi_io.specs.Counts.{Rose};
ghost use Rattle.psi_io.specs.Sink.{appended, GrewByPrefix, TookPrefix};

/// Why a write took no bytes.
#[derive(Clone, Copy, Debug, PartialEq, Eq)]
pub enum SinkFault {
    /// The sink could not take the bytes. It comes only where the sink's count of faults rose in
    /// this call, or stands at the greatest u64.
    Failed,
}

/// What takes bytes, some of a piece at a time.
///
/// Four meanings belong to a sink. `held` is what it holds, where the model has it: a sink over a
/// terminal has none. `took` is the bytes that were accepted since the sink was made, by it or by
/// what is below it: every sink has it. They may be more than the answers of its calls show, where a write
/// failed after some bytes had been accepted. `faults` is its count of faults, which never falls. `takes` says of a
/// number of bytes that this many are taken, in however many writes, and none fails: the count doesn't
/// rise there. A sink over a writer says it of no number.
pub trait Sink {
    ghost held: { Self → Option (List ℕ) };

    ghost took: { Self → List ℕ };

    ghost faults: { Self → ℕ };

    ghost takes: { Self → ℕ → Type 0 } = { λ _ _. ⊥ };

    /// Takes the first bytes of a piece, at least one of a piece that isn't empty, and returns how
    /// many.
    ///
    /// # Errors
    ///
    /// [`SinkFault::Failed`] only where the sink's count rose or stands at the greatest u64. The
    /// sink then holds what it held, and at most a prefix of the piece was accepted.
    fn write(&mut self, piece: &[u8]) -> Result<usize, SinkFault>
        ensures within { IfOk result (λ count. count ≤ length piece.now) }
        ensures progress { IfOk result (λ count. 1 ≤ length piece.now → 1 ≤ count) }
        ensures grew { IfOk result (λ count. held self.new ≡ appended (held self.old) (take count piece.now)) }
        ensures took { IfOk result (λ count. took self.new ≡ took self.old ++ take count piece.now) }
        ensures failed { OnErr result (Rose (faults self.old) (faults self.new)) }
        ensures kept { OnErr result (held self.new ≡ held self.old) }
        ensures took_part { OnErr result (TookPrefix (took self.old) (took self.new) piece.now) }
        ensures counts { faults self.old ≤ faults self.new }
        ensures taken { (n : ℕ) → takes self.old n → length piece.now ≤ n → IsOk result }
        ensures spared { (n : ℕ) → takes self.old n → length piece.now ≤ n → faults self.new ≡ faults self.old }
        ensures takes_on { (n : ℕ) → takes self.old n → IfOk result (λ count. takes self.new (n - count)) };
}

/// Writes a whole piece, in as many writes as the sink asks for.
///
/// # Errors
///
/// [`SinkFault::Failed`] only where the sink's count rose or stands at the greatest u64. What the
/// sink holds then grew by the bytes of the piece that were taken before: a prefix of it. So did what
/// was accepted.
pub fn write_all<K: Sink>(sink: &mut K, piece: &[u8]) -> Result<(), SinkFault>
    ensures whole { OnOk result (K.held sink.new ≡ appended (K.held sink.old) piece.now) }
    ensures prefix { OnErr result (GrewByPrefix (K.held sink.old) (K.held sink.new) piece.now) }
    ensures took { OnOk result (K.took sink.new ≡ K.took sink.old ++ piece.now) }
    ensures took_part { OnErr result (TookPrefix (K.took sink.old) (K.took sink.new) piece.now) }
    ensures failed { OnErr result (Rose (K.faults sink.old) (K.faults sink.new)) }
    ensures counts { K.faults sink.old ≤ K.faults sink.new }
    ensures taken { (n : ℕ) → K.takes sink.old n → length piece.now ≤ n → IsOk result }
    ensures spared { (n : ℕ) → K.takes sink.old n → length piece.now ≤ n → K.faults sink.new ≡ K.faults sink.old }
    ensures takes_on { (n : ℕ) → K.takes sink.old n → OnOk result (K.takes sink.new (n - length piece.now)) }
{
    let mut at = 0;
    while at < piece.len() {
        match sink.write(&piece[at..]) {
            Ok(count) => at += count,
            Err(fault) => return Err(fault),
        }
    }
    Ok(())
}
