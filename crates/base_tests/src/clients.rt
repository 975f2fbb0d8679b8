// Tokens and client ids. The digests are those of the Python module hashlib.
use std::alloc::Global;
use std::test::Fail;
use wiki_titles::{ClientId, Token, TokenFault};

#[test]
fn a_token_is_its_text(rt: HostRuntime) -> Result<(), Fail> {
    for typed in ["t-1", "a", "AZ_az-09"] {
        assert_eq!(rt; Token::parse(rt.alloc(), typed)?.text(), typed);
    }
    Ok(())
}

fn is_refused(alloc: Global, typed: &str) -> bool {
    matches!(Token::parse(alloc, typed), Err(TokenFault::Form))
}

#[test]
fn other_signs_make_no_token(rt: HostRuntime) {
    for typed in ["", "a b", "a.b", "é", "a\n"] {
        assert!(rt; is_refused(rt.alloc(), typed), "{typed}");
    }
}

#[test]
fn a_token_has_at_most_64_bytes(rt: HostRuntime) -> Result<(), Fail> {
    let most = "x".repeat(rt.alloc(), 64)?;
    let token = Token::parse(rt.alloc(), most.as_str())?;
    assert_eq!(rt; token.text(), most.as_str());
    let over = "x".repeat(rt.alloc(), 65)?;
    assert!(rt; is_refused(rt.alloc(), over.as_str()));
    Ok(())
}

#[test]
fn a_token_hands_its_text_on(rt: HostRuntime) -> Result<(), Fail> {
    let token = Token::parse(rt.alloc(), "t-1")?;
    assert_eq!(rt; token.clone()?.into_text().as_str(), "t-1");
    Ok(())
}

const DIGITS: &str = "0123456789abcdef0123456789abcdef";

const NO_CLIENTS: [&str; 5] = [
    "",
    "0123456789abcdef0123456789abcde",
    "0123456789abcdef0123456789abcdef0",
    "0123456789ABCDEF0123456789abcdef",
    "0123456789abcdeg0123456789abcdef",
];

#[test]
fn a_client_is_32_digits(rt: HostRuntime) -> Result<(), Fail> {
    let client = ClientId::parse(DIGITS).ok_or("no client")?;
    assert_eq!(rt; client.digits().as_slice(), DIGITS.as_bytes());
    for typed in NO_CLIENTS {
        assert!(rt; ClientId::parse(typed).is_none(), "{typed}");
    }
    Ok(())
}

const NUMBERED: [(u64, &str); 4] = [
    (0, "00000000000000000000000000000000"),
    (1, "00000000000000000000000000000001"),
    (255, "000000000000000000000000000000ff"),
    (u64::MAX, "0000000000000000ffffffffffffffff"),
];

#[test]
fn a_number_is_a_client(rt: HostRuntime) {
    for (number, digits) in NUMBERED {
        assert!(rt;
            ClientId::parse(digits) == Some(ClientId::number(number)),
            "{digits}"
        );
    }
    assert!(rt; ClientId::number(1) < ClientId::number(2));
}

// the peer, the agent, and the client's digits
const REQUESTS: [(&str, &str, &str); 6] = [
    (
        "127.0.0.1",
        "curl/8.5.0",
        "5d860d8b56092af17d1ad1299e46b5e9",
    ),
    ("", "", "68b329da9893e34099c7d8ad5cb9c940"),
    (
        "10.0.0.7",
        "Mozilla/5.0 (X11; Linux x86_64)",
        "cb79604942a343b5176a4570c17cc753",
    ),
    ("::1", "", "eecc54e1d81ae20a07a997e26917a042"),
    ("a", "b", "8cdeb44417f3c26826595d5820cf5700"),
    ("192.168.1.20:5000", "é", "2924d8227b34c49ccdd5f8f7eff350d2"),
];

#[test]
fn a_request_has_its_client(rt: HostRuntime) {
    for (peer, agent, digits) in REQUESTS {
        assert!(rt;
            ClientId::parse(digits) == Some(ClientId::of(peer, agent)),
            "{peer} {agent}"
        );
    }
}
