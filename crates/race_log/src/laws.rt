//! What validity says, and which edges the logs have.
ghost use Rattle.race_log.specs.Laws.{ValidTest, EdgesByPair, VectorsByPair};
ghost use Rattle.race_log.specs.Sources.{EdgesArePaired, EdgesCounted, EdgesWithin, OneSource};

/// Validity can be tested by computing, and says what each pair's lists are.
pub fn validity_laws()
    ensures test { ValidTest }
    ensures edges { EdgesByPair }
    ensures vectors { VectorsByPair }
{}

/// The edges of a log are those of its pairs of cores, lie within the totals, and at most one of them
/// leads from a core to an instruction. There are as many as are counted.
pub fn source_laws()
    ensures paired { EdgesArePaired }
    ensures within { EdgesWithin }
    ensures one { OneSource }
    ensures counted { EdgesCounted }
{}
