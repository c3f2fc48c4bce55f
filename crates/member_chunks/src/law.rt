//! Laws of the answers: what they leave a client with, and what their chunks are.

ghost use Rattle.member_chunks.specs.Law.{AnswerKeeps, EachChunkKeeps, EachChunkStays, ChunksAreAll, AnswersSpeak};

/// After an answer, a client that held the projection of a guild's record holds it still.
pub fn answer_keeps()
    ensures { AnswerKeeps }
{}

/// After each chunk of an answer, a client that held the projection holds it still.
pub fn each_chunk_keeps()
    ensures { EachChunkKeeps }
{}

/// After a chunk of another guild, a client holds what it held.
pub fn each_chunk_stays()
    ensures { EachChunkStays }
{}

/// Each member that is found stands in one chunk, in order.
pub fn chunks_are_all()
    ensures { ChunksAreAll }
{}

/// A request that is answered gets at least one chunk, and another none.
pub fn answers_speak()
    ensures { AnswersSpeak }
{}
