// The definition of the Rust's steps on words and rows that the steps of a frame name beside a path's own: the inverses and what is made of a
// gain, the analysis filter, the harmonic shaping, the rows left for the next frame. It has no function; the code that is proved against it
// is that of `inverses`, `gain_terms`, `analysis`, `harmonic` and `tails`.

#![tactic(auto)]
