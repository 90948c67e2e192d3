// The sync: what was learned becomes addresses and routes.
ghost use Rattle.std.specs.Prelude.{◌≡◌};
ghost use Rattle.autoconf.specs.SyncRules.{preferred_of, sync_prefix, sync_router, sync_addrs, sync_routes};

use iface::addr::{AddrOrigin, IFACE_ADDR_COUNT, IfaceAddr, IfaceAddrs, Preferred};
use iface::route::{IPV6_DEFAULT, ROUTE_COUNT, Route, RouteOrigin, Routes};
use slaac::{Prefix, Router, SLAAC_PREFIX_COUNT, SLAAC_ROUTER_COUNT, Slaac};
use table::count_of;
use time::{Expiry, Instant};
use wire::ethernet::HardwareAddress;
use wire::ipv6::Formed;

// Until its end, while that is to come; else Never.
fn still_preferred(prefix: Prefix, now: Instant) -> Preferred
    ensures { result ≡ preferred_of now prefix.preferred_until }
{
    if prefix.is_preferred(now) {
        return Preferred::Until(prefix.preferred_until);
    }
    Preferred::Never
}

// What the prefix forms comes or stays while it is valid, and goes when it is not, if it is SLAAC's. The table is lent: by value, each
// prefix would copy it in and out.
fn sync_prefix(addrs: &mut IfaceAddrs, prefix: Prefix, hardware_addr: HardwareAddress, now: Instant)
    ensures { addrs.new ≡ sync_prefix hardware_addr now addrs.old prefix }
{
    let Formed::Addr(cidr) = prefix.cidr.from_link_prefix(hardware_addr) else {
        return;
    };
    if !prefix.is_valid(now) {
        *addrs = addrs.drop_addr(cidr);
        return;
    }
    let preferred = still_preferred(prefix, now);
    let count = count_of(addrs.len, IFACE_ADDR_COUNT);
    addrs.len = count;
    // By a name of its own: behind a reference, the array's length is seen by way of a slice.
    let slots: &[IfaceAddr] = &addrs.slots;
    if let Some(at) = table::position(&slots[..count], |existing| existing.cidr == cidr) {
        // SLAAC's own takes the new time, sooner or later than before: so a router retires a prefix. What the application added is
        // the application's.
        if addrs.slots[at].origin.is_slaac() {
            addrs.slots[at] = IfaceAddr {
                origin: AddrOrigin::Slaac,
                preferred,
                ..addrs.slots[at]
            };
        }
        return;
    }
    if count < IFACE_ADDR_COUNT {
        addrs.slots[count] = IfaceAddr {
            cidr,
            origin: AddrOrigin::Slaac,
            preferred,
        };
        addrs.len = count + 1;
    }
}

// A valid router is a default route, and the route of an expired one goes. The application's route by the same router does not stand in
// its way. Beside `sync_prefix`: other fields are stored, and every router has a route.
fn sync_router(routes: &mut Routes, router: Router, iface: u8, now: Instant)
    ensures { routes.new ≡ sync_router iface now routes.old router }
{
    if !router.is_valid(now) {
        *routes = routes.drop_route(iface, router.addr);
        return;
    }
    let expires_at = Expiry::At(router.valid_until);
    let count = count_of(routes.len, ROUTE_COUNT);
    routes.len = count;
    let slots: &[Route] = &routes.slots;
    if let Some(at) = table::position(
        &slots[..count],
        |existing| existing.installed(iface, router.addr),
    ) {
        let existing = &mut routes.slots[at];
        existing.origin = RouteOrigin::Slaac;
        existing.expires_at = expires_at;
        return;
    }
    if count < ROUTE_COUNT {
        routes.slots[count] = Route {
            cidr: IPV6_DEFAULT,
            via_router: router.addr,
            iface,
            origin: RouteOrigin::Slaac,
            expires_at,
        };
        routes.len = count + 1;
    }
}

pub fn sync_addrs(
    mut addrs: IfaceAddrs,
    slaac: Slaac,
    hardware_addr: HardwareAddress,
    now: Instant,
) -> IfaceAddrs
    ensures { result ≡ sync_addrs hardware_addr now addrs slaac }
{
    let count = count_of(slaac.prefix_count, SLAAC_PREFIX_COUNT);
    for prefix in &slaac.prefixes[..count] {
        sync_prefix(&mut addrs, *prefix, hardware_addr, now);
    }
    addrs
}

pub fn sync_routes(mut routes: Routes, slaac: Slaac, iface: u8, now: Instant) -> Routes
    ensures { result ≡ sync_routes iface now routes slaac }
{
    let count = count_of(slaac.router_count, SLAAC_ROUTER_COUNT);
    for router in &slaac.routers[..count] {
        sync_router(&mut routes, *router, iface, now);
    }
    routes
}
