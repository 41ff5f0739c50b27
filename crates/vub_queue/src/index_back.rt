ghost use Rattle.vub_queue.specs.IndexBack.{PutIndexIsReadBack};

/// Law: the used index that a put writes is read back, where its word is covered and its two bytes lie at two places.
pub fn put_index_is_read_back()
    ensures { PutIndexIsReadBack }
{}
