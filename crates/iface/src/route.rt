// The routes, shared by the interfaces.
ghost use Rattle.std.specs.Prelude.{◌≡◌};
ghost use Rattle.table.specs.Calls.{place_of};
ghost use Rattle.iface.specs.RouteRules.{routes_of, with_routes, empty_routes, is_slaac, is_route, is_manual_route, is_learned, is_installed, manual_route, AddedRouteTo, drop_route, clear_routes, RouteListed};

use crate::check_prefix;
use table::{count_of, position, remove, retain};
use time::{Expiry, Instant};
use wire::error::Refusal;
use wire::ipv6::{Ipv6Addr, Ipv6Cidr};

// How many routes the interfaces can share.
pub const ROUTE_COUNT: usize = 8;

// Who put a route there. A type apart from an address's origin, as in the Rust.
#[derive(Clone, Copy)]
pub enum RouteOrigin {
    // The application.
    Manual,
    // The sync, for a router that advertised itself.
    Slaac,
}

// Packets for the prefix go to the router, by the interface.
#[derive(Clone, Copy)]
pub struct Route {
    pub cidr: Ipv6Cidr,
    pub via_router: Ipv6Addr,
    pub iface: u8,
    pub origin: RouteOrigin,
    pub expires_at: Expiry,
}

// Fixed memory: an array, and a count, which may be above its size (document 01).
#[derive(Clone, Copy)]
pub struct Routes {
    pub slots: [Route; ROUTE_COUNT],
    pub len: usize,
}

// What the application's call leaves.
#[derive(Clone, Copy)]
pub struct AddedRoute {
    pub routes: Routes,
    pub outcome: Result<(), Refusal>,
}

// ::/0
pub const IPV6_DEFAULT: Ipv6Cidr = Ipv6Cidr {
    address: Ipv6Addr { hi: 0, lo: 0 },
    prefix_len: 0,
};

impl RouteOrigin {
    fn is_slaac(self) -> bool
        ensures { result ≡ is_slaac self }
    {
        matches!(self, RouteOrigin::Slaac)
    }
}

impl Route {
    // A route added by the application, with no expiry.
    fn manual(iface: u8, cidr: Ipv6Cidr, via_router: Ipv6Addr) -> Route
        ensures { result ≡ manual_route iface cidr via_router }
    {
        Route {
            cidr,
            via_router,
            iface,
            origin: RouteOrigin::Manual,
            expires_at: Expiry::Forever,
        }
    }

    // Whether it is that route: when and by whom it was made does not count, so it is no derived comparison.
    fn same_route(&self, iface: u8, cidr: Ipv6Cidr, via_router: Ipv6Addr) -> bool
        ensures { result ≡ is_route iface cidr via_router self.now }
    {
        self.iface == iface && self.cidr == cidr && self.via_router == via_router
    }

    // Whether it is a route that the application added, out of the interface to the prefix via the router.
    fn assigned(&self, iface: u8, cidr: Ipv6Cidr, via_router: Ipv6Addr) -> bool
        ensures { result ≡ is_manual_route iface cidr via_router self.now }
    {
        !self.origin.is_slaac() && self.same_route(iface, cidr, via_router)
    }

    // Whether it is the default route by that router that SLAAC installed on the interface.
    pub fn installed(self, iface: u8, via_router: Ipv6Addr) -> bool
        ensures { result ≡ is_installed iface via_router self }
    {
        self.origin.is_slaac() && self.same_route(iface, IPV6_DEFAULT, via_router)
    }

    // Whether SLAAC learned it on the interface.
    fn is_learned(&self, iface: u8) -> bool
        ensures { result ≡ is_learned iface self.now }
    {
        self.origin.is_slaac() && self.iface == iface
    }
}

impl Routes {
    // A table with no routes.
    pub fn new() -> Routes
        ensures { result ≡ empty_routes }
    {
        let blank = Route {
            cidr: IPV6_DEFAULT,
            via_router: Ipv6Addr { hi: 0, lo: 0 },
            iface: 0,
            origin: RouteOrigin::Manual,
            expires_at: Expiry::At(Instant(0)),
        };
        Routes {
            slots: [blank; ROUTE_COUNT],
            len: 0,
        }
    }

    // Where a route that the application added stands.
    fn place_of(&self, iface: u8, cidr: Ipv6Cidr, via_router: Ipv6Addr) -> Option<usize>
        ensures { result ≡ place_of (is_manual_route iface cidr via_router) (routes_of self.now) }
    {
        let count = count_of(self.len, ROUTE_COUNT);
        position(
            &self.slots[..count],
            |entry| entry.assigned(iface, cidr, via_router),
        )
    }

    // Where the default route by that router stands, if SLAAC installed one on the interface.
    fn place_installed(&self, iface: u8, via_router: Ipv6Addr) -> Option<usize>
        ensures { result ≡ place_of (is_installed iface via_router) (routes_of self.now) }
    {
        let count = count_of(self.len, ROUTE_COUNT);
        position(
            &self.slots[..count],
            |entry| entry.installed(iface, via_router),
        )
    }

    // The application adds a route.
    pub fn add_route(self, iface: u8, cidr: Ipv6Cidr, via_router: Ipv6Addr) -> AddedRoute
        ensures { AddedRouteTo self iface cidr via_router result }
    {
        if let Err(why) = check_prefix(iface, cidr) {
            return AddedRoute {
                routes: self,
                outcome: Err(why),
            };
        }
        if self.place_of(iface, cidr, via_router).is_some() {
            return AddedRoute {
                routes: self,
                outcome: Err(Refusal::Duplicate),
            };
        }
        let count = count_of(self.len, ROUTE_COUNT);
        if count == ROUTE_COUNT {
            return AddedRoute {
                routes: self,
                outcome: Err(Refusal::Full),
            };
        }
        let mut routes = self;
        routes.slots[count] = Route::manual(iface, cidr, via_router);
        routes.len = count + 1;
        AddedRoute {
            routes,
            outcome: Ok(()),
        }
    }

    // SLAAC's own calls, which take an interface that SLAAC has tested. The default route by an expired router goes, and later
    // ones move down. Only one that SLAAC installed on the interface.
    pub fn drop_route(self, iface: u8, via_router: Ipv6Addr) -> Routes
        ensures { result ≡ with_routes self (drop_route iface via_router (routes_of self)) }
    {
        let count = count_of(self.len, ROUTE_COUNT);
        let mut routes = Routes { len: count, ..self };
        if let Some(at) = self.place_installed(iface, via_router) {
            remove(&mut routes.slots, count, at);
            routes.len = count - 1;
        }
        routes
    }

    // SLAAC's routes of the interface go, and the others keep their order.
    pub fn clear_slaac(self, iface: u8) -> Routes
        ensures { result ≡ with_routes self (clear_routes iface (routes_of self)) }
    {
        let count = count_of(self.len, ROUTE_COUNT);
        let mut routes = self;
        routes.len = retain(&mut routes.slots, count, |entry| !entry.is_learned(iface));
        routes
    }

    // The listing, entry by entry.
    pub fn at(self, index: usize) -> Option<Route>
        ensures { RouteListed self index result }
    {
        let count = count_of(self.len, ROUTE_COUNT);
        self.slots[..count].get(index).copied()
    }
}
