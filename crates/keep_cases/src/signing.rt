// Signatures. `macs`: the input, whole, under a `key` (`TIMES DIGITS`, hexadecimal); the digits of its HMAC. `signatures`: each line is a digest, signed for
// `token`, `expiry`, `ttl` and `secret`. `verdicts`: each line is a locator, checked for `token`, `ttl` and `secret` at `reading`. `signed`: the input, whole,
// is a manifest, signed as `signatures` are; with `unsigned`, without its permission hints.
use crate::manifests::answer_refusal;
use keep_casebook::{Answer, Case, repeated};
use keep_locator::Locator;
use keep_sign::{Unverified, hmac, sign, sign_manifest, unsigned_manifest, verify};
use keep_spec::Digest;
use std::alloc::Global;

pub fn answer_mac(alloc: Global, case: &Case, answer: &mut Answer) {
    match repeated(alloc, case.value("key").unwrap_or("")) {
        Ok(Some(key)) => {
            answer.hexadecimal(&hmac(&key, case.input()));
            answer.end();
        }
        Ok(None) => answer.value(b"no key"),
        Err(_) => answer.cut(),
    }
}

// What the case says of a signature.
#[derive(Clone, Copy)]
struct Terms<'a> {
    token: &'a [u8],
    expiry: u32,
    ttl: u32,
    secret: &'a [u8],
}

fn terms_of<'a>(case: &Case<'a>) -> Terms<'a> {
    Terms {
        token: case.value("token").unwrap_or("").as_bytes(),
        expiry: u32::try_from(case.number("expiry", 0)).unwrap_or(0),
        ttl: u32::try_from(case.number("ttl", 0)).unwrap_or(0),
        secret: case.value("secret").unwrap_or("").as_bytes(),
    }
}

pub fn answer_signatures(case: &Case, answer: &mut Answer) {
    let terms = terms_of(case);
    for line in case.body().split(|byte| *byte == b'\n') {
        match Digest::read(line) {
            Some(digest) => {
                let signature = sign(&digest, terms.token, terms.expiry, terms.ttl, terms.secret);
                answer.value(&signature);
            }
            None => answer.value(b"not a digest"),
        }
    }
}

pub fn answer_verdicts(case: &Case, answer: &mut Answer) {
    let terms = terms_of(case);
    let reading = case.number("reading", 0);
    for line in case.body().split(|byte| *byte == b'\n') {
        match Locator::read(line) {
            Ok(locator) => answer_verdict(&locator, &terms, reading, answer),
            Err(_) => answer.value(b"not a locator"),
        }
    }
}

fn answer_verdict(locator: &Locator, terms: &Terms, reading: u64, answer: &mut Answer) {
    match verify(locator, terms.token, terms.ttl, terms.secret, reading) {
        Ok(verified) => {
            answer.text(b"valid ");
            answer.text(&verified.digest.write());
            answer.text(b" ");
            answer.number(u64::from(verified.expiry));
            answer.end();
        }
        Err(Unverified::Missing) => answer.value(b"Missing"),
        Err(Unverified::Expired { expiry }) => {
            answer.text(b"Expired ");
            answer.number(u64::from(expiry));
            answer.end();
        }
        Err(Unverified::Invalid) => answer.value(b"Invalid"),
    }
}

pub fn answer_signed(alloc: Global, case: &Case, answer: &mut Answer) {
    let terms = terms_of(case);
    let text = if case.value("unsigned").is_some() {
        unsigned_manifest(alloc, case.input())
    } else {
        sign_manifest(
            alloc,
            case.input(),
            terms.token,
            terms.expiry,
            terms.ttl,
            terms.secret,
        )
    };
    match text {
        Ok(text) => answer.output(text.as_slice()),
        Err(refusal) => answer_refusal(refusal, answer),
    }
}
