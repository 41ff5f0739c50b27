use thiserror::Error;
use vub_block::BlockError;
use vub_dir::TreeError;

/// What a part of a text would have to be for the text to be a script.
#[derive(Clone, Copy, Debug, PartialEq, Eq, Error)]
pub enum Rule {
    /// The text is no JSON from this line and column on, as serde_json tells them.
    #[error("line {line}, column {column}: no JSON text (RFC 8259 in UTF-8, nested at most 127 deep)")]
    Json { line: usize, column: usize },
    #[error("a number is a whole number from 0 to 18446744073709551615, or \"0x\" and 1 to 16 digits 0-9a-f")]
    Number,
    #[error("this number is below 4294967296")]
    Number32,
    #[error("this number is below 65536")]
    Number16,
    #[error("bytes are a text of an even count of digits 0-9a-f")]
    Hex,
    #[error("a truth value is true or false")]
    Truth,
    #[error("here stands a list")]
    List,
    #[error("a script is an object")]
    Script,
    #[error("no such key; a script has service, objects, regions, rings, requests, guest, queues, max_size, masks, features, \
protocol, config, bitmap, exits, refuse, schedule, rounds")]
    ScriptKey,
    #[error("a service is \"echo\", {{\"dir\":[entry,..]}} or {{\"block\":sectors,\"id\":HEX}}")]
    Service,
    #[error("an entry is {{\"name\":TEXT,\"hex\":HEX}} or {{\"name\":TEXT,\"entries\":[entry,..]}}")]
    Entry,
    #[error("directories nest at most 64 deep")]
    Nesting,
    /// The entries are no tree.
    #[error("these entries are no directory: {0}")]
    Tree(TreeError),
    /// The sectors and the id are no disk.
    #[error("this is no disk: {0}")]
    Disk(BlockError),
    #[error("an object is {{\"event\":flags}}, {{\"bytes\":length}}, {{\"hex\":HEX}} or {{\"log\":length}}")]
    Object,
    #[error("a bitmap is \"none\" or \"pages\"")]
    Bitmap,
    #[error("a region is [start,len,user,offset,object]")]
    Region,
    #[error("a ring is an object")]
    Ring,
    #[error("no such key; a ring has queue, size, info, base, next_used, kick, call, ready, enabled")]
    RingKey,
    #[error("this key has to be given")]
    Given,
    #[error("a ring's addresses are [desc,avail,used]")]
    Info,
    #[error("an action is [\"store\",object,offset,HEX], [\"signal\",object] or [\"harvest\",object,word]")]
    Action,
    #[error("a request is a list of its name and its arguments")]
    Request,
    #[error("no such request")]
    RequestName,
    #[error("here stands another number of arguments")]
    Arguments,
    #[error("a region in a request is [start,len,user,offset]")]
    Part,
}
