// Headers in words, four to each: they are taken out of the words, given their offsets, and put back.
ghost use Rattle.std.specs.Prelude.{◌≡◌, [], ◌∷◌, ◌++◌, ◌+◌, ◌*◌, ◌-◌, ◌≤◌, length, take, drop, replicate};
ghost use Rattle.header_offsets.specs.Headers.{num_vars_of, num_terms_of, column_total, no_header, header_in, headers_in, header_words, filled_words};

use crate::MonomialHeader;

// The header whose words stand at `at`.
fn header_at(words: &[u32], at: usize) -> MonomialHeader
    requires { at + 4 ≤ length words.now }
    ensures { result ≡ header_in (drop at words.now) }
{
    MonomialHeader {
        var_offset: words[at],
        term_offset: words[at + 1],
        num_vars: words[at + 2],
        num_terms: words[at + 3],
    }
}

fn put_header(words: &mut [u32], at: usize, header: MonomialHeader)
    requires { at + 4 ≤ length words.old }
    ensures { words.new ≡ take at words.old ++ (header_words (header ∷ []) ++ drop (at + 4) words.old) }
{
    words[at..at + 4].copy_from_slice(&[
        header.var_offset,
        header.term_offset,
        header.num_vars,
        header.num_terms,
    ]);
}

// The k headers whose words stand from `at` on, and headers of four zeros.
fn take_headers(words: &[u32], at: usize, k: usize) -> [MonomialHeader; 16]
    requires { (k ≤ 16) × (at + 4 * k ≤ length words.now) }
    ensures { result ≡ headers_in k (drop at words.now) ++ replicate (16 - k) no_header }
{
    let mut headers = [MonomialHeader::default(); 16];
    for j in 0..k {
        headers[j] = header_at(words, at + 4 * j);
    }
    headers
}

// These headers, as words from `at` on.
fn put_headers(words: &mut [u32], at: usize, headers: &[MonomialHeader])
    requires { at + 4 * length headers.now ≤ length words.old }
    ensures { words.new
        ≡ take at words.old ++ (header_words headers.now ++ drop (at + 4 * length headers.now) words.old) }
{
    for (j, header) in headers.iter().enumerate() {
        put_header(words, at + 4 * j, *header);
    }
}

// Both offsets of the first n headers become the totals over the headers before each, sixteen headers at a time.
pub fn fill_words(words: &mut [u32], n: usize)
    requires { (4 * n ≤ length words.old) × (column_total num_vars_of (headers_in n words.old) ≤ 4294967295)
        × (column_total num_terms_of (headers_in n words.old) ≤ 4294967295) }
    ensures { words.new ≡ filled_words n words.old }
{
    let mut vars: u32 = 0;
    let mut terms: u32 = 0;
    for i in (0..n).step_by(16) {
        let k = (n - i).min(16);
        let mut headers = take_headers(words, 4 * i, k);
        crate::fill_offsets(&mut headers, vars, terms);
        put_headers(words, 4 * i, &headers[..k]);
        let last = headers[15];
        vars = last.var_offset + last.num_vars;
        terms = last.term_offset + last.num_terms;
    }
}
