// What is printed where a call of a client has no result.
use keep_client::ClientError;
use std::io;

/// Prints the name of the cause and its numbers.
pub fn tell(rt: &HostRuntime, error: ClientError) -> io::Result<()> {
    match error {
        ClientError::BadLocator { at } => println!(rt; "BadLocator {at}"),
        ClientError::TooFew {
            acked,
            failed,
            refused,
        } => println!(rt; "TooFew {acked} {failed} {refused}"),
        ClientError::NotFound => println!(rt; "NotFound"),
        ClientError::Unread {
            wrong,
            failed,
            refused,
        } => println!(rt; "Unread {wrong} {failed} {refused}"),
        ClientError::LinkFault => println!(rt; "LinkFault"),
        ClientError::Refused { status } => println!(rt; "Refused {status}"),
        ClientError::BadResponse => println!(rt; "BadResponse"),
        ClientError::BadIndex { at } => println!(rt; "BadIndex {at}"),
        ClientError::CutIndex => println!(rt; "CutIndex"),
        ClientError::NoMemory => println!(rt; "NoMemory"),
    }
}
