// What is wrong with a line of a script, in words.

/// What the kind of a script's fault means, and what to write in its place.
pub fn script_words(kind: &str) -> &'static str {
    match kind {
        "word" => {
            "this line is none of: C get K, C insert K V, C update K V, C remove K, step C N, until C KIND N (KIND is store, exchange, flush, fence, draw or end), until C at W, close, cut N; each letter but KIND stands for a number, as in `1 get 5`, words are parted by spaces, and a line that begins with # is skipped"
        }
        "number" => {
            "in this line something else stands where a number must: a number is 0 to 18446744073709551615, in 1 to 20 decimal digits and nothing else"
        }
        "caller" => {
            "this line names a caller that there is not: a call is of one of callers 1 to 64, as in `2 get 5`, and a step or an until of one of 0 to 64"
        }
        "order" => {
            "this line may not stand behind the lines before it: first all calls, then step and until, then close and lines of caller 0, and cut last"
        }
        _ => {
            "a script has at most 16777216 bytes and 1000000 lines: play it in parts, one after another"
        }
    }
}
