// What the public document says of the excitation: RFC 6716, section 4.2.7.8.6. It is all in specs/, on whole numbers, and
// there is no code here: the crates above are proved to agree with it.

#![tactic(auto)]
